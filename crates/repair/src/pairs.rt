// The pairs of a node: the search for a pair, by itself.
ghost use Rattle.std.specs.Prelude.{◌≡◌};
ghost use Rattle.repair.specs.Answers.{pairs_as};
ghost use Rattle.repair.specs.Pairs.{pairs_found};

use crate::{Answer, Session};
use checks::Refusal;
use pairing::Pairs;

impl Session {
    // The pair of a node, live or missing, of which the smaller node is least, and how many related pairs of it are both live; zeros where it
    // has none, as `pairs_found` has it and C gets it.
    pub fn pairs(self, node: usize) -> Answer<Pairs>
        ensures { pairs_as result ≡ pairs_found self node }
    {
        let code = match self.code() {
            Ok(code) => code,
            Err(refusal) => return self.refused(refusal),
        };
        if base::is_outside(1, code.node_count(), node) {
            return self.refused(Refusal::UnknownNode);
        }
        let pairs = pairing::search::pairs_of(code, self.live, node);
        self.served(pairs)
    }
}
