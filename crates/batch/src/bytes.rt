// Numbers as bytes, the lowest first.
ghost use Rattle.std.specs.Prelude.{◌≡◌, ◌+◌, ◌≤◌, length};
ghost use Rattle.std.proofs.lemmas.List.Edits.{sets};
ghost use Rattle.batch.specs.Bytes.{number};

// The word in the eight bytes at a place.
pub fn read_word(bytes: &[u8], at: usize) -> u64
    requires { at + 8 ≤ length bytes.now }
    ensures { result ≡ number 8 bytes.now at }
{
    let mut word = [0; 8];
    word.copy_from_slice(&bytes[at..at + 8]);
    u64::from_le_bytes(word)
}

// So many bytes, at a place.
pub fn put<const N: usize>(out: &mut [u8], at: usize, bytes: [u8; N])
    requires { at + N ≤ length out.old }
    ensures { out.new ≡ sets out.old at bytes.entry }
{
    out[at..at + N].copy_from_slice(&bytes);
}
