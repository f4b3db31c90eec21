ghost use Rattle.std.specs.Prelude.{◌≡◌, ◌≤◌, OnOk, OnErr};
ghost use Rattle.outside_io.specs.Faults.{Rose, RoseByOne};
ghost use Rattle.outside_io.specs.SinkView.{PutsAll, PutsPrefix};

use crate::sink::{Failed, MAX_PIECE, Sink};

/// Writes any bytes through a sink, in pieces of 4,096 bytes and a last one that may be shorter.
/// After `Failed` a prefix of the bytes was written. It takes no memory.
pub fn put_all<K: Sink>(sink: &mut K, bytes: &[u8]) -> Result<(), Failed>
    ensures appended { OnOk result (PutsAll (K.shown sink.old) (K.shown sink.new) bytes.now) }
    ensures prefix { OnErr result (PutsPrefix (K.shown sink.old) (K.shown sink.new) bytes.now) }
    ensures cause { OnErr result (Rose (K.shown sink.old).faults (K.shown sink.new).faults) }
    ensures once { OnErr result (RoseByOne (K.shown sink.old).faults (K.shown sink.new).faults) }
    ensures faults_stay { OnOk result ((K.shown sink.new).faults ≡ (K.shown sink.old).faults) }
    ensures faults_stay_or_rise { (K.shown sink.old).faults ≤ (K.shown sink.new).faults }
{
    for piece in bytes.chunks(MAX_PIECE) {
        sink.put(piece)?;
    }
    Ok(())
}
