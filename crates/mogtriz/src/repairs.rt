// Step, plan, run, the pairs of a node and plans made elsewhere from C. A refusal hands the session back as it came, byte for byte; a
// step, run or plan that is carried out gives the next one.
ghost use Rattle.std.specs.Prelude.{◌≡◌};
ghost use Rattle.checks.specs.Refusals.{number_in};
ghost use Rattle.repair.specs.Answers.{repairs_as, bad_with};
ghost use Rattle.repair.specs.Step.{nodes_stepped};
ghost use Rattle.repair.specs.Repairs.{out_planned, nodes_ran};
ghost use Rattle.repair.specs.Carry.{nodes_carried};
ghost use Rattle.mogtriz.specs.Sessions.{session_of_c};
ghost use Rattle.mogtriz.specs.Repairs.{handed_back, repairs_c, stepped_c, planned_c, ran_c, pairs_found_c, plan_checked_c, carried_c};

use crate::sessions::MarkedSession;
use pairing::Pairs;
use repair::{Answer, Session, Totals};

// C's mogtriz_stepped.
#[repr(C)]
#[derive(Clone, Copy)]
pub struct StepAnswer {
    pub refusal: u8,
    pub session: MarkedSession,
}

// C's mogtriz_repairs.
#[repr(C)]
#[derive(Clone, Copy)]
pub struct RepairsAnswer {
    pub refusal: u8,
    pub steps: usize,
    pub rounds: usize,
    pub left: usize,
    pub session: MarkedSession,
}

// C's mogtriz_pairs_found.
#[repr(C)]
#[derive(Clone, Copy)]
pub struct PairsAnswer {
    pub refusal: u8,
    pub smaller: usize,
    pub larger: usize,
    pub count: usize,
    pub session: MarkedSession,
}

// C's mogtriz_plan_checked and mogtriz_carried; `bad` is their bad_step.
#[repr(C)]
#[derive(Clone, Copy)]
pub struct PlanAnswer {
    pub refusal: u8,
    pub bad: usize,
    pub session: MarkedSession,
}

// The session that C gets: the one it handed in where that is refused, else the next, by the number that C gets with it.
fn handed_back(session: MarkedSession, refusal: u8, next: Session) -> MarkedSession
    ensures { result ≡ handed_back session refusal next }
{
    if refusal != 0 {
        return session;
    }
    MarkedSession::from(next)
}

// The numbers of a plan or run with the session that C gets.
fn repairs_for_c(answer: Answer<Totals>, session: MarkedSession) -> RepairsAnswer
    ensures { result ≡ repairs_c (repairs_as answer) session }
{
    let totals = answer.result.unwrap_or(Totals {
        steps: 0,
        rounds: 0,
        left: 0,
    });
    RepairsAnswer {
        refusal: checks::number(answer.result),
        steps: totals.steps,
        rounds: totals.rounds,
        left: totals.left,
        session,
    }
}

// The number of a plan's first bad step, 0 where it has none, with the session that C gets.
fn plan_for_c(answer: Answer<Option<usize>>, session: MarkedSession) -> PlanAnswer
    ensures { result ≡ record { refusal = number_in answer.result; bad = bad_with answer.result; session = session } }
{
    let bad = match answer.result {
        Ok(Some(step)) => step,
        _ => 0,
    };
    PlanAnswer {
        refusal: checks::number(answer.result),
        bad,
        session,
    }
}

// One missing node repaired from two live ones.
#[unsafe(no_mangle)]
pub extern "C" fn mogtriz_step(
    session: MarkedSession,
    nodes: &mut [u8],
    node: usize,
    first: usize,
    second: usize,
) -> StepAnswer
    ensures value { result ≡ stepped_c session nodes.old node first second }
    ensures nodes_after { nodes.new ≡ nodes_stepped (session_of_c session) nodes.old node first second }
{
    let stepped = Session::from(session).step(nodes, node, first, second);
    let refusal = checks::number(stepped.result);
    StepAnswer {
        refusal,
        session: handed_back(session, refusal, stepped.session),
    }
}

// The plan's steps, four bytes each.
#[unsafe(no_mangle)]
pub extern "C" fn mogtriz_plan(session: MarkedSession, out: &mut [u8]) -> RepairsAnswer
    ensures value { result ≡ planned_c session out.old }
    ensures out_after { out.new ≡ out_planned (session_of_c session) out.old }
{
    let planned = Session::from(session).plan(out);
    repairs_for_c(planned, session)
}

// The plan carried out on a nodes buffer.
#[unsafe(no_mangle)]
pub extern "C" fn mogtriz_run(session: MarkedSession, nodes: &mut [u8]) -> RepairsAnswer
    ensures value { result ≡ ran_c session nodes.old }
    ensures nodes_after { nodes.new ≡ nodes_ran (session_of_c session) nodes.old }
{
    let ran = Session::from(session).run(nodes);
    let given = handed_back(session, checks::number(ran.result), ran.session);
    repairs_for_c(ran, given)
}

// The pair of a node whose smaller node is least, and how many pairs it has.
#[unsafe(no_mangle)]
pub extern "C" fn mogtriz_pairs(session: MarkedSession, node: usize) -> PairsAnswer
    ensures { result ≡ pairs_found_c session node }
{
    let found = Session::from(session).pairs(node);
    let pairs = found.result.unwrap_or(Pairs {
        smaller: 0,
        larger: 0,
        count: 0,
    });
    PairsAnswer {
        refusal: checks::number(found.result),
        smaller: pairs.smaller,
        larger: pairs.larger,
        count: pairs.count,
        session,
    }
}

// The number of the first bad step of a plan made elsewhere.
#[unsafe(no_mangle)]
pub extern "C" fn mogtriz_check_plan(session: MarkedSession, plan: &[u8]) -> PlanAnswer
    ensures { result ≡ plan_checked_c session plan.now }
{
    let checked = carrying::check_plan(Session::from(session), plan);
    plan_for_c(checked, session)
}

// A plan made elsewhere, carried out on a nodes buffer where it is accepted.
#[unsafe(no_mangle)]
pub extern "C" fn mogtriz_carry_plan(
    session: MarkedSession,
    plan: &[u8],
    nodes: &mut [u8],
) -> PlanAnswer
    ensures value { result ≡ carried_c session plan.now nodes.old }
    ensures nodes_after { nodes.new ≡ nodes_carried (session_of_c session) plan.now nodes.old }
{
    let carried = carrying::carry_plan(Session::from(session), plan, nodes);
    let given = handed_back(session, checks::number(carried.result), carried.session);
    plan_for_c(carried, given)
}
