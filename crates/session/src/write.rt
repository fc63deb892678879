// The writing of a session's bundle into a caller's buffer.
ghost use Rattle.session.specs.WriteCall.{WriteMet};

use crate::session::Session;
use common::Refusal;

impl Session {
    /// Writes the bundle of the rows and steps held into the buffer.
    pub fn write(&self, out: &mut [u8]) -> Result<usize, Refusal>
        ensures { WriteMet self.now out.old result out.new }
    {
        self.whole_tables();
        let held = self.held();
        let size = bundles::bundle_length(held);
        // Before the first byte: a write that is refused changes none.
        if out.len() < size {
            return Err(Refusal::ShortBuffer(size));
        }
        bundles::write_bundle(out, held);
        Ok(size)
    }
}
