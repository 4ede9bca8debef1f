// Records read from files. What a file holds is assumed of the system; how its bytes become words is proved.
#![tactic(auto)]

ghost use Rattle.std.specs.Prelude.{◌≡◌, ◌+◌, ◌*◌, ◌≤◌, length};
ghost use Rattle.files.specs.Bytes.{IsCount, Decoded, Loaded};

use std::fs;
use std::io::Read;
use std::rt::Files;

// How many words the bytes give: all, or none.
fn words_of(bytes: usize, room: usize) -> usize
    ensures { IsCount bytes room result }
{
    if (bytes % 2 != 0) | (room < bytes / 2) {
        return 0;
    }
    bytes / 2
}

pub fn decode(bytes: &[u8], words: &mut [u16]) -> usize
    ensures { Decoded bytes.now words.old result words.new }
{
    let n = words_of(bytes.len(), words.len());
    // By number: of what is written through `words.iter_mut()` under an adapter, as `zip`, the check knows nothing.
    for i in 0..n {
        words[i] = u16::from_le_bytes([bytes[2 * i], bytes[2 * i + 1]]);
    }
    n
}

// Reads until `bytes` is full, the file ends or a read fails, and says how many bytes it put at the start.
fn read_full(file: &mut impl Read, bytes: &mut [u8]) -> usize
    ensures { result ≤ length bytes.new }
{
    let mut got = 0;
    while got < bytes.len() {
        match file.read(&mut bytes[got..]) {
            Ok(0) | Err(_) => break,
            Ok(n) => got += n,
        }
    }
    got
}

// How many words of the file stand at the start of `words`. None is the empty record, which every check refuses for its
// shape. A file that cannot be opened gives none, and so does a path that is no text, since std opens no other. To tell a file
// that is too long, lend more bytes than `words` has room for.
pub fn load(files: &impl Files, path: &[u8], bytes: &mut [u8], words: &mut [u16]) -> usize
    ensures upper_bound { result ≤ length words.new }
    ensures loaded { Loaded bytes.new words.old result words.new }
{
    let Ok(name) = str::from_utf8(path) else {
        return 0;
    };
    let Ok(mut file) = fs::open(files, name) else {
        return 0;
    };
    let got = read_full(&mut file, bytes);
    decode(&bytes[..got], words)
}
