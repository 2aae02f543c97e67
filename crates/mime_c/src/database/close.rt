//! A database is closed.

ghost use Rattle.std.specs.Prelude.{◌≡◌};
ghost use Rattle.mime_c.specs.Opened.{given_back};

use crate::database::handle::Handle;
use crate::look_up::Text;

/// Closes a database, and gives back what C has to free: the memory of a cache that was made, else nothing. NULL is no database, and
/// nothing is done. C calls this through `mimelook_close`, which frees the memory.
///
/// That the database's own block is freed is not proved.
#[unsafe(no_mangle)]
pub extern "C" fn close_database(database: Handle, memory: &mut Text<'static>)
    // It is the memory that the database was opened with.
    ensures { memory.new.bytes.now ≡ given_back database.opened }
{
    memory.bytes = match database.into_value() {
        Some(opened) => {
            let opened = opened.into_box();
            opened.memory()
        }
        None => &[],
    };
}
