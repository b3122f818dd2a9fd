// Read out: the object from the nodes of its data blocks.
ghost use Rattle.std.specs.Prelude.{◌≡◌};
ghost use Rattle.repair.specs.Answers.{read_out_as};
ghost use Rattle.repair.specs.ReadOut.{read_out_of, object_out};

use crate::{Answer, Session};
use checks::Refusal;

impl Session {
    // The object becomes the k data blocks. 14 comes with the lowest data block whose node is missing.
    pub fn read_out(self, nodes: &[u8], object: &mut [u8]) -> Answer<()>
        ensures value { read_out_as result ≡ read_out_of self nodes.now object.old }
        ensures object_after { object.new ≡ object_out self nodes.now object.old }
    {
        let code = match self.check_nodes(nodes.len()) {
            Ok(code) => code,
            Err(refusal) => return self.refused(refusal),
        };
        if object.len() != self.k * self.len {
            return self.refused(Refusal::BufferLength);
        }
        let live = self.live;
        if let Some(block) = readout::missing_block(code, &live) {
            return self.refused(Refusal::BlockMissing(block));
        }
        readout::copy_data_blocks(code, self.len, nodes, object);
        self.served(())
    }
}
