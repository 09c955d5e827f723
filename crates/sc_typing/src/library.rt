//! The functions of the library.

ghost use Rattle.std.specs.Prelude.{◌≡◌};
ghost use Rattle.sc_typing.specs.Source as source;

/// A function of the library.
#[derive(Clone, Copy, Debug, PartialEq, Eq)]
pub enum Library {
    Printf,
    Sync,
    Barrier,
    AllStoreSync,
    ToGlobal,
    ToProc,
    ToLocal,
    BulkRead,
    BulkWrite,
    BulkGet,
    BulkPut,
    BulkStore,
}

static LIBRARIES: [Library; 12] = [
    Library::Printf,
    Library::Sync,
    Library::Barrier,
    Library::AllStoreSync,
    Library::ToGlobal,
    Library::ToProc,
    Library::ToLocal,
    Library::BulkRead,
    Library::BulkWrite,
    Library::BulkGet,
    Library::BulkPut,
    Library::BulkStore,
];

/// The function of the library that the text names.
#[tactic(auto, unfolding(crate::specs::Source::library_of))]
pub fn library_of(text: &[u8]) -> Option<Library>
    ensures { result ≡ source.library_of text.now }
{
    LIBRARIES.iter().copied().find(|l| text == library_text(*l))
}

fn library_text(library: Library) -> &'static [u8]
    ensures { result.now ≡ source.library_text library }
{
    match library {
        Library::Printf => b"printf",
        Library::Sync => b"sync",
        Library::Barrier => b"barrier",
        Library::AllStoreSync => b"all_store_sync",
        Library::ToGlobal => b"toglobal",
        Library::ToProc => b"toproc",
        Library::ToLocal => b"tolocal",
        Library::BulkRead => b"bulk_read",
        Library::BulkWrite => b"bulk_write",
        Library::BulkGet => b"bulk_get",
        Library::BulkPut => b"bulk_put",
        Library::BulkStore => b"bulk_store",
    }
}
