//! The version of the interface. `include/prefix_trie.h` has it too.
ghost use Rattle.std.specs.Prelude.{◌≡◌};
ghost use Rattle.prefix_trie_c.specs.declared.version.TheConstants.{VERSION};

/// The version, major * 65536 + minor.
pub const VERSION: u32 = 1;

/// Returns the version.
#[unsafe(no_mangle)]
pub extern "C" fn prefix_trie_c_version() -> u32
    ensures { result ≡ VERSION }
{
    VERSION
}
