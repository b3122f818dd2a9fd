// Start, and whether a session is sound.
ghost use Rattle.std.specs.Prelude.{◌≡◌, [], ◌∷◌, ◌≤◌, IfOk, length};
ghost use Rattle.checks.specs.Checks.{◌gives◌, first_met};
ghost use Rattle.checks.specs.Refusals.{number_in, IsCodeOf};
ghost use Rattle.lists.specs.Lists.{live_nodes};
ghost use Rattle.repair.specs.Answers.{started_as};
ghost use Rattle.repair.specs.Session.{start_checks, started, node_count_of, miscounted, unsound, nodes_checks};

use crate::{Answer, Session};
use checks::Refusal;
use families::Code;

// The first check of a start that is met, if one is. Any number of a family is served or refused (`start_checks`).
fn check_start(family: usize, k: usize, len: usize, list: &[u8]) -> Result<(), Refusal>
    ensures { number_in result ≡ first_met (start_checks family k len list.now) }
{
    let code = checks::parameters(family, k, len)?;
    lists::check(code.node_count(), list)
}

impl Session {
    // A session with the nodes of a strictly rising list live.
    pub fn start(family: usize, k: usize, len: usize, list: &[u8]) -> Result<Session, Refusal>
        ensures { started_as result ≡ started family k len list.now }
    {
        check_start(family, k, len, list)?;
        Ok(Session {
            family,
            k,
            len,
            steps: 0,
            live: lists::marks_of_list(list),
            reads: [0u16; 256],
        })
    }

    // Whether the counts are wrong, by n and the number of live nodes. Steps and missing nodes exceed n where there are more steps
    // than live nodes: asked first, so that the steps are at most 255 and twice as many fit a machine word.
    fn is_miscounted(self, n: usize, live: usize) -> bool
        requires { (n ≡ node_count_of self) × (n ≤ 255) × (live ≡ length (live_nodes self.live n)) }
        ensures { result ≡ miscounted self }
    {
        if live < self.steps {
            return true;
        }
        let reads = self.reads;
        if counts::counted_outside(n, reads) {
            return true;
        }
        counts::sum(reads) != 2 * self.steps
    }

    // The code of a sound session; 13 for any other.
    pub fn code(self) -> Result<Code, Refusal>
        ensures number { number_in result ≡ first_met ((unsound self gives 13) ∷ []) }
        ensures code { IfOk result (IsCodeOf self.family self.k) }
    {
        let code = match checks::parameters(self.family, self.k, self.len) {
            Ok(code) => code,
            Err(_) => return Err(Refusal::UnsoundSession),
        };
        let n = code.node_count();
        let live = self.live;
        if lists::live_outside(n, &live) {
            return Err(Refusal::UnsoundSession);
        }
        if self.is_miscounted(n, lists::count_live(&live, n)) {
            return Err(Refusal::UnsoundSession);
        }
        Ok(code)
    }

    // Whether the session is turned away with 13.
    pub fn is_unsound(self) -> bool
        ensures { result ≡ unsound self }
    {
        match self.code() {
            Ok(_) => false,
            Err(_) => true,
        }
    }

    // The code; 13, or 6 for a nodes buffer that is not n × L bytes long.
    pub fn check_nodes(self, nodes: usize) -> Result<Code, Refusal>
        ensures number { number_in result ≡ first_met (nodes_checks self nodes) }
        ensures code { IfOk result (IsCodeOf self.family self.k) }
    {
        let code = self.code()?;
        let n = code.node_count();
        if nodes != n * self.len {
            return Err(Refusal::BufferLength);
        }
        Ok(code)
    }

    // A refused call: the session goes back as it was handed in.
    pub fn refused<T: Copy>(self, refusal: Refusal) -> Answer<T>
        ensures { result ≡ record { result = Err refusal; session = self } }
    {
        Answer {
            result: Err(refusal),
            session: self,
        }
    }

    // A served call after which the session is this one.
    pub fn served<T: Copy>(self, value: T) -> Answer<T>
        ensures { result ≡ record { result = Ok value; session = self } }
    {
        Answer {
            result: Ok(value),
            session: self,
        }
    }
}
