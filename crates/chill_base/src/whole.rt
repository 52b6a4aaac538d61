// A file is read whole, and is refused where it is too long.
ghost use Rattle.std.specs.Prelude.{◌≡◌, List, length};
ghost use Rattle.chill_base.specs.Whole.{ReadsWhole};

use crate::{Failed, Files, List, Text};
use std::alloc::Global;

/// Why a file wasn't read whole.
#[derive(Clone, Copy, Debug, PartialEq, Eq, Drop)]
pub enum Unread {
    Fault,
    Long,
    NoMemory,
}

/// The greatest length of a file.
pub const FILE_LIMIT: usize = 67108864;

/// Opens the file and reads it to its end. Each turn takes at least one byte.
pub fn read_whole<F: Files>(alloc: Global, files: &mut F, name: &str) -> Result<Text, Unread>
    ensures { ReadsWhole (F.state files.old) name.now (F.state files.new) result }
{
    if files.open_file(name).is_err() {
        return Err(Unread::Fault);
    }
    let mut text = Vec::new(alloc);
    let mut buf = [0; 4096];
    let mut len = 0;
    while len < FILE_LIMIT {
        let room = (FILE_LIMIT - len).min(4096);
        match files.read(&mut buf[..room]) {
            Ok(0) => return Ok(List::from_vec(text)),
            Ok(count) => {
                if text.extend_from_slice(&buf[..count]).is_err() {
                    return Err(Unread::NoMemory);
                }
                len += count;
            }
            Err(Failed) => return Err(Unread::Fault),
        }
    }
    match files.read(&mut buf[..1]) {
        Ok(0) => Ok(List::from_vec(text)),
        Ok(_) => Err(Unread::Long),
        Err(Failed) => Err(Unread::Fault),
    }
}
