// What a case's buffers hold at first, and patches of them.

// The first item, and each later one made of the one before.
fn fill_from<T: Copy, F: Fn(T) -> T>(items: &mut [T], first: T, next: F)
    requires { F.IsAlwaysCallable next }
{
    let mut value = first;
    for item in items.iter_mut() {
        *item = value;
        value = next(value);
    }
}

// Word i is 1515870810 - i.
pub fn fresh_words(words: &mut [u32]) {
    fill_from(words, 1515870810, |word| word.wrapping_sub(1));
}

// Byte i is 7 i + 3 modulo 256.
pub fn fresh_bytes(bytes: &mut [u8]) {
    fill_from(bytes, 3, |byte| byte.wrapping_add(7));
}

// The words of a part of the stream.
pub fn load(words: &mut [u32], items: &[[u8; 4]]) {
    for (word, bytes) in words.iter_mut().zip(items) {
        *word = u32::from_le_bytes(*bytes);
    }
}

// Pairs of index and word; an index past the end is passed over.
pub fn patch(words: &mut [u32], pairs: &[[u8; 8]]) {
    for bytes in pairs {
        let pair = u64::from_le_bytes(*bytes);
        let index = (pair % 0x1_0000_0000) as usize;
        if index < words.len() {
            words[index] = (pair >> 32) as u32;
        }
    }
}
