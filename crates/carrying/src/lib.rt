// A plan made elsewhere, checked for a session, and carried out where it is accepted.
#![tactic(auto)]

ghost use Rattle.std.specs.Prelude.{◌≡◌, IfOk};
ghost use Rattle.base.specs.Numbers.{numbered};
ghost use Rattle.repair.specs.Answers.{plan_checked_as};
ghost use Rattle.repair.specs.Carry.{is_cut, bad_in, plan_checked, carried, nodes_carried};

use checks::Refusal;
use repair::{Answer, Session};

// Whether a plan is no whole number of steps.
fn is_cut(plan: &[u8]) -> bool
    ensures { result ≡ is_cut plan.now }
{
    plan.len() % 4 != 0
}

// The number of a plan's first bad step, if it has one. Nothing is written.
pub fn check_plan(session: Session, plan: &[u8]) -> Answer<Option<usize>>
    ensures value { plan_checked_as result ≡ plan_checked session plan.now }
    ensures bad { IfOk result.result (λ bad. bad ≡ numbered (bad_in session plan.now)) }
{
    let code = match session.code() {
        Ok(code) => code,
        Err(unsound) => return session.refused(unsound),
    };
    if is_cut(plan) {
        return session.refused(Refusal::BufferLength);
    }
    let checked = validation::validate(code, session.live, plan);
    session.served(checked.bad)
}

// The plan carried out on the nodes buffer, if every step of it is good: that is known before a byte is written. Else the number of its first
// bad step.
pub fn carry_plan(session: Session, plan: &[u8], nodes: &mut [u8]) -> Answer<Option<usize>>
    ensures value { plan_checked_as result ≡ carried session plan.now nodes.old }
    ensures bad { IfOk result.result (λ bad. bad ≡ numbered (bad_in session plan.now)) }
    ensures nodes_after { nodes.new ≡ nodes_carried session plan.now nodes.old }
{
    let code = match session.check_nodes(nodes.len()) {
        Ok(code) => code,
        Err(refusal) => return session.refused(refusal),
    };
    if is_cut(plan) {
        return session.refused(Refusal::BufferLength);
    }
    let checked = validation::validate(code, session.live, plan);
    if let Some(step) = checked.bad {
        return session.served(Some(step));
    }
    let next = session.make_steps(plan, checked.live, nodes);
    next.served(None)
}
