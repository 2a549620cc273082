ghost use Rattle.std.specs.Prelude.{◌≡◌, IfOk};

use seq_vector::{NoMemory, Share, Shared};
use std::alloc::Global;
use std::marker::Model;

/// A shared text. Contracts see it as the list of its bytes.
#[derive(Drop)]
pub struct Text {
    bytes: Shared<Vec<u8>>,
}

impl Model for Text {
    ghost use Rattle.std.specs.Prelude.{List, ℕ};

    ghost Value = { List ℕ };

    ghost view = { λ text. text.bytes.items };
}

impl Text {
    /// A text of its own with these bytes.
    pub fn of(alloc: Global, bytes: &[u8]) -> Result<Text, NoMemory>
        ensures { IfOk result (λ text. text ≡ bytes.now) }
    {
        let Ok(copy) = Vec::from_slice(alloc, bytes) else {
            return Err(NoMemory);
        };
        match Shared::of(alloc, copy) {
            Ok(bytes) => Ok(Text { bytes }),
            Err((_, why)) => Err(why),
        }
    }

    /// The bytes in order.
    pub fn bytes(&self) -> &[u8]
        ensures { result.now ≡ self.now }
    {
        self.bytes.get().as_slice()
    }
}

/// One atomic increment, whatever the length.
impl Share for Text {
    fn share(&self) -> Result<Text, NoMemory> {
        let bytes = self.bytes.share()?;
        Ok(Text { bytes })
    }
}
