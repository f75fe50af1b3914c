// Where a method is found in a table: the class that owns it and its number, or nothing. For a host's wiring list.
// Not here: the search (classes).
ghost use Rattle.std.specs.Prelude.{◌≡◌};
ghost use Rattle.classes.specs.Machine.{lookup_of};
ghost use Rattle.engine.specs.Finding.{finding_in};

use classes::methods::lookup;
use classes::places::SIZE;
use cofj::Finding;

// The method of a name, from a class, in any table's bytes.
pub(crate) fn find_method(table: &[u8; SIZE], class: u8, name: u8) -> Finding
    ensures { result ≡ finding_in (lookup_of table.now class name) }
{
    match lookup(table, class, name) {
        Some(f) => Finding {
            found: true,
            owner: f.owner,
            method: f.method,
        },
        None => Finding {
            found: false,
            owner: 0,
            method: 0,
        },
    }
}
