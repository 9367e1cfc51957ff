ghost use Rattle.std.specs.Prelude.{◌≡◌, ◌*◌, ◌%◌, ◌^◌, fold, bit_xor};
ghost use Rattle.fal_place.specs.Hash.{hash_after, name_hash as name_hash_of, key_hash as key_hash_of};

// The offset and the prime of FNV-1a with 64 bits.
const OFFSET: u64 = 14695981039346656037;

const PRIME: u64 = 1099511628211;

// The hash after these bytes too.
fn hash_from(hash: u64, bytes: &[u8]) -> u64
    ensures { result ≡ fold hash_after hash bytes.now }
{
    bytes.iter().fold(
        hash,
        |hash, byte| (hash ^ u64::from(*byte)).wrapping_mul(PRIME),
    )
}

/// The hash of a name: FNV-1a with 64 bits (Fowler, Noll and Vo). Takes no memory.
#[tactic(auto, unfolding(crate::specs::Hash::name_hash))]
pub fn name_hash(bytes: &[u8]) -> u64
    ensures { result ≡ name_hash_of bytes.now }
{
    hash_from(OFFSET, bytes)
}

// The hash of a key: of the parent's 8 bytes, the highest first, and then the name's.
#[tactic(auto, unfolding(crate::specs::Hash::name_hash, crate::specs::Hash::key_hash))]
pub(crate) fn key_hash(parent: u64, name: &[u8]) -> u64
    ensures { result ≡ key_hash_of parent name.now }
{
    hash_from(hash_from(OFFSET, &parent.to_be_bytes()), name)
}
