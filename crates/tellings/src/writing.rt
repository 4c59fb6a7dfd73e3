// Lines, as the jobs write them.
ghost use Rattle.std.specs.Prelude.{◌≤◌, map, IfErr, OnOk};
ghost use Rattle.std.specs.List.{concat};
ghost use Rattle.std.specs.Io.KnownBytes.{Appends};
ghost use Rattle.run_model.specs.Outside.{stream};
ghost use Rattle.tellings.specs.Stops.{LinesStop};

use crate::stop::Stop;
use slif_base::{Sink, write_all};

/// Writes lines, one piece each.
pub fn write_lines<'a, O: Sink>(lines: &[Vec<u8>], out: &mut O) -> Result<(), Stop<'a>>
    ensures written { OnOk result (Appends (O.contents out.old) (O.contents out.new) (concat (map (λ l. l.items) lines.now))) }
    ensures stops { IfErr result (LinesStop (map (λ l. l.items) lines.now)
        (stream O.contents O.fault_count out.old) (stream O.contents O.fault_count out.new)) }
    ensures out_later { O.fault_count out.old ≤ O.fault_count out.new }
{
    for line in lines {
        let Ok(()) = write_all(out, line) else {
            return Err(Stop::WriteFault);
        };
    }
    Ok(())
}
