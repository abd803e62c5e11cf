//! Where output goes.

ghost use Rattle.std.specs.Prelude.{◌≡◌, ℕ, ◌<◌, ◌≤◌, List, Option, length, take, IfOk, OnOk};
ghost use Rattle.std.specs.Prelude.{OnErr};
ghost use Rattle.std.specs.Io.KnownBytes.{Appends, Keeps};
ghost use Rattle.erim_io.specs.Sink.{HasRisen, AppendsPart};

/// A put failed.
#[derive(Clone, Copy, Debug, PartialEq, Eq)]
pub struct Failed;

/// Where output goes. A put that fails is counted; `written` is what the sink says of its bytes.
pub trait Sink {
    // What was written, where the sink says it.
    ghost written: { Self → Option (List ℕ) };

    // How many puts failed.
    ghost faults: { Self → ℕ };

    /// Takes some of the bytes from the front and says how many: at least one, where there are any.
    fn put(&mut self, bytes: &[u8]) -> Result<usize, Failed>
        ensures taken { IfOk result (λ n. n ≤ length bytes.now) }
        ensures some { IfOk result (λ n. 0 < length bytes.now → 0 < n) }
        ensures appended { IfOk result
            (λ n. Appends (written self.old) (written self.new) (take n bytes.now)) }
        ensures unwritten { OnErr result (Keeps (written self.old) (written self.new)) }

        // A failed put is counted, no other is, and the count never falls.
        ensures failed { OnErr result (HasRisen (faults self.old) (faults self.new)) }
        ensures stays { OnOk result (faults self.new ≡ faults self.old) }
        ensures counted { faults self.old ≤ faults self.new };
}

/// Puts all of the bytes, in as many pieces as the sink wants, and stops at the first put that
/// fails. Takes no memory.
pub fn put_all<K: Sink>(sink: &mut K, bytes: &[u8]) -> Result<(), Failed>
    ensures ok { OnOk result (Appends (K.written sink.old) (K.written sink.new) bytes.now) }
    ensures part { OnErr result (AppendsPart (K.written sink.old) (K.written sink.new) bytes.now) }
    ensures failed { OnErr result (HasRisen (K.faults sink.old) (K.faults sink.new)) }
    ensures stays { OnOk result (K.faults sink.new ≡ K.faults sink.old) }
    ensures counted { K.faults sink.old ≤ K.faults sink.new }
{
    let mut at = 0;
    while at < bytes.len() {
        at += sink.put(&bytes[at..])?;
    }
    Ok(())
}
