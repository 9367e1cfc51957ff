//! The laws of records.

ghost use Rattle.std.specs.Prelude.{◌≡◌, ◌++◌, ℕ, List, [], Ok};
ghost use Rattle.fal_wire.specs.declared.message.Message.{Message};
ghost use Rattle.fal_wire.specs.Format.{IsBytes};
ghost use Rattle.fal_wire.specs.Messages.{spelling, Fits, reading};

/// Reading and spelling are each other's inverse, and no spelling is a proper front of another one.
pub fn spelling_laws()
    // Bytes that are read are the spelling of what is read, each of them, and that is within its ranges.
    ensures read { (bytes : List ℕ) (m : Message) → IsBytes bytes → reading bytes ≡ Ok m → (bytes ≡ spelling m) × Fits m }
    // A message within its ranges is read from its spelling.
    ensures spelled { (m : Message) → Fits m → reading (spelling m) ≡ Ok m }
    // What follows a spelling does not make it another one.
    ensures alone { (m n : Message) (rest : List ℕ) → Fits m → Fits n → spelling m ++ rest ≡ spelling n → rest ≡ [] }
{}
