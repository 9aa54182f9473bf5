//! Whole output.
ghost use Rattle.std.specs.Prelude.{◌≡◌, ◌++◌, OnOk, OnErr};
ghost use Rattle.std.specs.Io.KnownBytes.{Appends};
ghost use Rattle.hall_grid.specs.Device.{Rises};
ghost use Rattle.hall_http.specs.Device.{WritesPart};

use crate::fault::DeviceFault;
use hall_grid::Counted;
use std::io::Write;

/// Writes all the bytes. At the first write that fails it ends, and a first part of them was written.
pub fn write_all<W: Write>(writer: &mut Counted<W>, bytes: &[u8]) -> Result<(), DeviceFault>
    ensures written { OnOk result (Appends (W.contents writer.old.device) (W.contents writer.new.device) bytes.now) }
    ensures same { OnOk result (writer.new.failures ≡ writer.old.failures) }
    ensures device { OnErr result (Rises writer.old.failures writer.new.failures) }
    ensures part { OnErr result (WritesPart (W.contents writer.old.device) (W.contents writer.new.device) bytes.now) }
{
    let mut rest = bytes;
    while !rest.is_empty() {
        match writer.write(rest) {
            Ok(0) => return Err(DeviceFault),
            Ok(n) => rest = &rest[n..],
            Err(_) => return Err(DeviceFault),
        }
    }
    Ok(())
}

/// Writes all the bytes of both parts, one after the other, as `write_all` does.
pub(crate) fn write_parts<W: Write>(
    writer: &mut Counted<W>,
    parts: (&[u8], &[u8]),
) -> Result<(), DeviceFault>
    ensures written { OnOk result (Appends (W.contents writer.old.device) (W.contents writer.new.device)
        (parts.entry.0.now ++ parts.entry.1.now)) }
    ensures same { OnOk result (writer.new.failures ≡ writer.old.failures) }
    ensures device { OnErr result (Rises writer.old.failures writer.new.failures) }
    ensures part { OnErr result (WritesPart (W.contents writer.old.device) (W.contents writer.new.device)
        (parts.entry.0.now ++ parts.entry.1.now)) }
{
    let (head, body) = parts;
    write_all(writer, head)?;
    write_all(writer, body)
}
