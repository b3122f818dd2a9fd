// The live nodes of a session, listed: a list for start and write.
ghost use Rattle.std.specs.Prelude.{◌≡◌};
ghost use Rattle.repair.specs.Answers.{written_as};
ghost use Rattle.repair.specs.LiveNodes.{live_listed, out_listed};

use crate::{Answer, Session};
use checks::Refusal;

impl Session {
    // The live nodes, rising, a byte each: how many they are. Whether the buffer is long enough is known before a byte of it is written.
    pub fn live_nodes(self, out: &mut [u8]) -> Answer<usize>
        ensures value { written_as result ≡ live_listed self out.old }
        ensures out_after { out.new ≡ out_listed self out.old }
    {
        let code = match self.code() {
            Ok(code) => code,
            Err(refusal) => return self.refused(refusal),
        };
        let n = code.node_count();
        let live = self.live;
        let count = lists::count_live(&live, n);
        if out.len() < count {
            return self.refused(Refusal::BufferLength);
        }
        let all = lists::list_live(&live, n);
        blocks::copy_block(&mut out[0..count], &all[0..count]);
        self.served(count)
    }
}
