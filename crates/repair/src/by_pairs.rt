// Plan and run: the repairs of a session, listed and carried out; and steps that are handed in, made.
ghost use Rattle.std.specs.Prelude.{◌≡◌, false, ◌++◌, ◌*◌, ◌/◌, ◌≤◌, length, drop};
ghost use Rattle.families.specs.Families.{family_of};
ghost use Rattle.checks.specs.Refusals.{IsCodeOf};
ghost use Rattle.planning.specs.Plan.{marks_after, step_bytes};
ghost use Rattle.planning.specs.Made.{steps_in, nodes_made};
ghost use Rattle.planning.specs.Claims.{CanMakeAll};
ghost use Rattle.planning.specs.Inner.{planned_of};
ghost use Rattle.repair.specs.Answers.{repairs_as};
ghost use Rattle.repair.specs.Session.{node_count_of, unsound};
ghost use Rattle.repair.specs.Step.{after_steps};
ghost use Rattle.repair.specs.Repairs.{plan_in, planned, out_planned, ran, nodes_ran};

use crate::{Answer, Session, Totals, plan_room};
use checks::Refusal;
use families::Code;
use planning::Planned;

// What a plan comes to, for the caller, who does not get the marks.
impl From<Planned> for Totals {
    ghost use Rattle.repair.specs.Inner.{totals_of};

    ghost from_gives = { λ planned totals. totals ≡ totals_of planned };

    fn from(planned: Planned) -> Totals {
        Totals {
            steps: planned.steps,
            rounds: planned.rounds,
            left: planned.left,
        }
    }
}

impl Session {
    // The plan, made aside in a list with room for every step.
    fn draw_up(self, code: Code, steps: &mut [u8]) -> Planned
        requires { IsCodeOf self.family self.k code × (length steps.old ≡ 1020) }
        ensures value { (result ≡ planned_of (family_of self.family) self.k self.live) × (result.steps ≤ 255) }
        ensures steps_after { steps.new ≡ step_bytes (plan_in self) ++ drop (4 * length (plan_in self)) steps.old }
    {
        planning::rounds::make_plan(code, self.live, steps)
    }

    // The plan's steps, four bytes each. Whether the destination is long enough is known before a byte of it is written.
    pub fn plan(self, out: &mut [u8]) -> Answer<Totals>
        ensures value { repairs_as result ≡ planned self out.old }
        ensures out_after { out.new ≡ out_planned self out.old }
    {
        let code = match self.code() {
            Ok(code) => code,
            Err(unsound) => return self.refused(unsound),
        };
        let mut steps = plan_room();
        let made = self.draw_up(code, &mut steps);
        let needed = 4 * made.steps;
        if out.len() < needed {
            return self.refused(Refusal::BufferLength);
        }
        blocks::copy_block(&mut out[0..needed], &steps[0..needed]);
        self.served(Totals::from(made))
    }

    // The steps of a list, made on the nodes buffer: the nodes that they repair become live, which gives the marks `live`, and they and their
    // reads are counted.
    pub fn make_steps(mut self, steps: &[u8], live: [bool; 256], nodes: &mut [u8]) -> Session
        requires self_value { (unsound self ≡ false) × (length nodes.old ≡ node_count_of self * self.len) }
        requires can_make_all { CanMakeAll (family_of self.family) self.k self.live (steps_in steps.now (length steps.now / 4)) }
        requires live_value { live ≡ marks_after self.live (steps_in steps.now (length steps.now / 4)) }
        ensures value { result ≡ after_steps self (steps_in steps.now (length steps.now / 4)) }
        ensures nodes_after { nodes.new ≡ nodes_made self.len nodes.old (steps_in steps.now (length steps.now / 4)) }
    {
        planning::carry::carry_out(self.len, steps, nodes);
        self.live = live;
        let mut reads = self.reads;
        planning::carry::count_reads(steps, &mut reads);
        self.reads = reads;
        self.steps += steps.len() / 4;
        self
    }

    // The plan carried out on the nodes buffer; the repaired nodes become live, and its steps and their reads are counted. It goes by the
    // plan's own number of steps and not by `make_steps`: that a run counts its rounds instead is a wrong program of its own.
    pub fn run(mut self, nodes: &mut [u8]) -> Answer<Totals>
        ensures value { repairs_as result ≡ ran self nodes.old }
        ensures nodes_after { nodes.new ≡ nodes_ran self nodes.old }
    {
        let code = match self.check_nodes(nodes.len()) {
            Ok(code) => code,
            Err(refusal) => return self.refused(refusal),
        };
        let mut room = plan_room();
        let made = self.draw_up(code, &mut room);
        let steps = &room[..4 * made.steps];
        planning::carry::carry_out(self.len, steps, nodes);
        let live = made.live;
        self.live = live;
        let mut reads = self.reads;
        planning::carry::count_reads(steps, &mut reads);
        self.reads = reads;
        self.steps += made.steps;
        self.served(Totals::from(made))
    }
}
