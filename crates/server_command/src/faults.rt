// The notes on drives at which the making of files stops.
ghost use Rattle.std.specs.Prelude.{◌≡◌, IfOk, string_bytes};
ghost use Rattle.server_command.specs.Faults.{held_line, refused_line, silent_line};

use osd_lists::Memory;
use std::alloc::Global;

/// The note on a drive that gave no answer.
pub fn silent_line(alloc: Global, drive: u32) -> Result<String, Memory>
    ensures { IfOk result (λ line. string_bytes line ≡ silent_line drive) }
{
    Ok(format!(in alloc; "d{drive} gave no answer while the files were made")?)
}

/// The note on a drive that holds an object already, which the server doesn't know to be its own.
pub fn held_line(alloc: Global, drive: u32, object: u64) -> Result<String, Memory>
    ensures { IfOk result (λ line. string_bytes line ≡ held_line drive object) }
{
    Ok(format!(in alloc;
        "d{drive} holds object {object} already: is this the right journal, and are these the right drives? (docs/use/OPERATIONS.md)"
    )?)
}

/// The note on a drive that doesn't make an object.
pub fn refused_line(alloc: Global, drive: u32, object: u64) -> Result<String, Memory>
    ensures { IfOk result (λ line. string_bytes line ≡ refused_line drive object) }
{
    Ok(format!(in alloc; "d{drive} doesn't make object {object}: its own notes say why")?)
}
