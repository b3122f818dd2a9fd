// Boxes: checked alone, read into a nodes buffer, written.
ghost use Rattle.std.specs.Prelude.{◌≡◌, [], ◌∷◌, ◌++◌};
ghost use Rattle.checks.specs.Checks.{first_met, ◌gives◌};
ghost use Rattle.checks.specs.Refusals.{number_in};
ghost use Rattle.lists.specs.Lists.{list_checks, some_missing};
ghost use Rattle.boxes.specs.Box.{box_checks};
ghost use Rattle.repair.specs.Answers.{started_as, written_as};
ghost use Rattle.repair.specs.Session.{node_count_of, nodes_checks};
ghost use Rattle.repair.specs.Boxed.{session_in, checked_box, read_box, nodes_read, written, out_written};

use crate::{Answer, Session};
use checks::Refusal;

// The session of an accepted box.
fn box_session(bytes: &[u8]) -> Session
    requires { first_met (box_checks bytes.now) ≡ 0 }
    ensures { result ≡ session_in bytes.now }
{
    Session {
        family: boxes::family(bytes),
        k: boxes::block_count(bytes),
        len: boxes::block_length(bytes),
        steps: 0,
        live: lists::marks_of_list(boxes::names(bytes)),
        reads: [0u16; 256],
    }
}

impl Session {
    // A box checked alone gives its session.
    pub fn check(bytes: &[u8]) -> Result<Session, Refusal>
        ensures { started_as result ≡ checked_box bytes.now }
    {
        boxes::check(bytes)?;
        Ok(box_session(bytes))
    }

    // The bodies of a box are put in their places in the nodes buffer; places of missing nodes keep their bytes.
    pub fn read(bytes: &[u8], nodes: &mut [u8]) -> Result<Session, Refusal>
        ensures value { started_as result ≡ read_box bytes.now nodes.old }
        ensures nodes_after { nodes.new ≡ nodes_read bytes.now nodes.old }
    {
        let code = boxes::check(bytes)?;
        let len = boxes::block_length(bytes);
        let n = code.node_count();
        if nodes.len() != n * len {
            return Err(Refusal::BufferLength);
        }
        boxes::read_bodies(len, nodes, boxes::names(bytes), boxes::bodies(bytes));
        Ok(box_session(bytes))
    }

    // 13, 6 for the nodes, 4, 5 or 12, if one is due.
    fn check_list(self, nodes: usize, list: &[u8]) -> Result<(), Refusal>
        ensures { number_in result ≡ first_met (nodes_checks self nodes ++ (list_checks (node_count_of self) list.now ++ ((some_missing self.live list.now gives 12) ∷ []))) }
    {
        let code = self.check_nodes(nodes)?;
        lists::check(code.node_count(), list)?;
        let live = self.live;
        if lists::some_missing(&live, list) {
            return Err(Refusal::NodeMissing);
        }
        Ok(())
    }

    // The box of the listed nodes, all of them live: its length.
    pub fn write(self, nodes: &[u8], list: &[u8], out: &mut [u8]) -> Answer<usize>
        ensures value { written_as result ≡ written self nodes.now list.now out.old }
        ensures out_after { out.new ≡ out_written self nodes.now list.now out.old }
    {
        if let Err(refusal) = self.check_list(nodes.len(), list) {
            return self.refused(refusal);
        }
        let count = list.len();
        let needed = 8 + count + count * self.len;
        if out.len() < needed {
            return self.refused(Refusal::BufferLength);
        }
        boxes::write_box(self.family, self.k, self.len, list, nodes, out);
        self.served(needed)
    }
}
