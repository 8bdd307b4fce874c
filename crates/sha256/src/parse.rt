// FIPS 180-4, 5.2.1: the sixteen words of a block, gathered from its bytes before the schedule begins. Only here do bytes become words.
ghost use Rattle.std.specs.Prelude.{◌≡◌};
ghost use Rattle.sha256.specs.Padding.{words};

pub fn gather(block: &[u8; 64]) -> [u32; 16]
    ensures { result ≡ words 16 block.now }
{
    let (parts, _) = block.as_chunks::<4>();
    let mut words = [0u32; 16];
    for (i, word) in words.iter_mut().enumerate() {
        *word = u32::from_be_bytes(parts[i]);
    }
    words
}
