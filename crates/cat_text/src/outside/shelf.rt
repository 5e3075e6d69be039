//! Files by name, of which one is loaded or saved whole.
ghost use Rattle.std.specs.Prelude.{◌≡◌, ℕ, ◌<◌, ◌≤◌, ◌⊎◌, Option, IfOk, OnOk};
ghost use Rattle.cat_text.specs.Shelves.{FileMap, Finds, KeepsFiles, SavesFile};

use super::fault::OutsideFault;

/// Why a file was not loaded.
pub type LoadFault = OutsideFault;

/// Why a file was not saved.
pub type SaveFault = OutsideFault;

/// Files by name.
///
/// `files` is the bytes of each file by its name, for a shelf that tells them; such a shelf tells them after each call
/// too. `faults` counts the calls that failed, and `steady` says that none of those to come is to fail.
pub trait Shelf {
    ghost files: { Self → Option FileMap };

    ghost faults: { Self → ℕ };

    ghost steady: { Self → Type 0 };

    /// The bytes of the file of this name; None where there is no such file. The files stay as they are, whatever the
    /// answer is.
    fn load(&mut self, name: &str) -> Result<Option<Vec<u8>>, LoadFault>
        ensures finds { IfOk result (λ found. Finds (files self.old) name.now found) }
        ensures keeps { KeepsFiles (files self.old) (files self.new) }

        ensures counted { result ≡ Err OutsideFault.Failed → faults self.old < faults self.new }
        ensures never_falls { faults self.old ≤ faults self.new }
        ensures stays_steady { steady self.old → steady self.new × (faults self.new ≡ faults self.old) };

    /// Gives the file of this name these bytes, and makes it where there is none. No other file changes, whatever the
    /// answer is.
    fn save(&mut self, name: &str, bytes: &[u8]) -> Result<(), SaveFault>
        ensures saves { OnOk result (SavesFile (files self.old) (files self.new) name.now bytes.now) }
        ensures failed { result ≡ Err OutsideFault.Failed
            → KeepsFiles (files self.old) (files self.new)
            ⊎ SavesFile (files self.old) (files self.new) name.now bytes.now }
        ensures no_memory { result ≡ Err OutsideFault.NoMemory → KeepsFiles (files self.old) (files self.new) }

        ensures counted { result ≡ Err OutsideFault.Failed → faults self.old < faults self.new }
        ensures never_falls { faults self.old ≤ faults self.new }
        ensures stays_steady { steady self.old → steady self.new × (faults self.new ≡ faults self.old) };
}
