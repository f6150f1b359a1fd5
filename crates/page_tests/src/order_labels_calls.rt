// Keys and labels: the worked codes, many insertions in all directions, and each call once.
use order_labels::*;
use std::alloc::Global;
use std::cmp::Ordering;
use std::process::Abort;
use std::test::Fail;

/// How many keys are inserted one after another.
const INSERTIONS: u32 = 2000;

/// The code of an integer's key.
fn code_of(rt: &impl Abort, alloc: Global, integer: i64) -> Result<Vec<u8>, NoMemory> {
    assert!(rt; LEAST_INTEGER < integer);
    assert!(rt; integer < INTEGER_BOUND);
    Key::whole(alloc, integer).code(alloc)
}

/// How many bytes a key's code has.
fn code_len(key: &Key, alloc: Global) -> Result<usize, NoMemory> {
    Ok(key.code(alloc)?.len())
}

/// A key between two others, after a test that they are in order.
fn insert(rt: &impl Abort, alloc: Global, low: &Key, high: &Key) -> Result<Key, NoMemory> {
    assert!(rt; cmp_keys(low, high) == Ordering::Less);
    between(alloc, Some(low), Some(high))
}

#[test]
fn codes_of_integers(rt: HostRuntime) -> Result<(), Fail> {
    let alloc = rt.alloc();
    assert_eq!(rt; code_of(&rt, alloc, 0)?.as_slice(), [129, 2].as_slice());
    assert_eq!(rt; code_of(&rt, alloc, 253)?.as_slice(), [129, 255].as_slice());
    assert_eq!(rt;
        code_of(&rt, alloc, 254)?.as_slice(),
        [130, 3, 2].as_slice()
    );
    assert_eq!(rt; code_of(&rt, alloc, -1)?.as_slice(), [127, 255].as_slice());
    assert_eq!(rt; code_of(&rt, alloc, -254)?.as_slice(), [127, 2].as_slice());
    assert_eq!(rt;
        code_of(&rt, alloc, -255)?.as_slice(),
        [126, 254, 255].as_slice()
    );
    let greatest = code_of(&rt, alloc, INTEGER_BOUND - 1)?;
    assert_eq!(rt;
        greatest.as_slice(),
        [135, 255, 255, 255, 255, 255, 255, 255].as_slice()
    );
    let low = code_of(&rt, alloc, LEAST_INTEGER + 1)?;
    assert_eq!(rt; low.as_slice(), [121, 2, 2, 2, 2, 2, 2, 3].as_slice());
    Ok(())
}

#[test]
fn spread_of_255(rt: HostRuntime) -> Result<(), Fail> {
    let alloc = rt.alloc();
    let list = spread(alloc, 255)?;
    let keys = list.as_slice();
    assert_eq!(rt; keys.len(), 255);
    assert_eq!(rt; keys[0].code(alloc)?.as_slice(), [129, 2].as_slice());
    assert_eq!(rt; keys[253].code(alloc)?.as_slice(), [129, 255].as_slice());
    assert_eq!(rt; keys[254].code(alloc)?.as_slice(), [130, 3, 2].as_slice());
    Ok(())
}

#[test]
fn always_between_the_same_two(rt: HostRuntime) -> Result<(), Fail> {
    let alloc = rt.alloc();
    let low = Key::whole(alloc, 0);
    let high = Key::whole(alloc, 1);
    let mut beside_low = insert(&rt, alloc, &low, &high)?;
    let mut beside_high = beside_low.copy()?;
    for _ in 1..INSERTIONS {
        beside_low = insert(&rt, alloc, &low, &beside_low)?;
        beside_high = insert(&rt, alloc, &beside_high, &high)?;
    }
    let low_len = code_len(&beside_low, alloc)?;
    let high_len = code_len(&beside_high, alloc)?;
    println!(rt; "next to the low one: {low_len} bytes, next to the high one: {high_len} bytes")?;
    assert!(rt; low_len <= 39);
    assert!(rt; high_len <= 39);
    Ok(())
}

#[test]
fn always_between_the_newest_two(rt: HostRuntime) -> Result<(), Fail> {
    let alloc = rt.alloc();
    let mut low = Key::whole(alloc, 0);
    let mut high = Key::whole(alloc, 1);
    for turn in 0..INSERTIONS {
        let key = insert(&rt, alloc, &low, &high)?;
        if turn % 2 == 0 {
            low = key;
        } else {
            high = key;
        }
    }
    println!(rt; "from both sides in turn: {} bytes", code_len(&low, alloc)?)?;
    Ok(())
}

#[test]
fn below_the_least_and_above_the_greatest(rt: HostRuntime) -> Result<(), Fail> {
    let alloc = rt.alloc();
    let mut first = Key::whole(alloc, LEAST_INTEGER + 1);
    let mut last = Key::whole(alloc, INTEGER_BOUND - 1);
    for _ in 0..INSERTIONS {
        let below = between(alloc, None, Some(&first))?;
        let above = between(alloc, Some(&last), None)?;
        assert!(rt; cmp_keys(&below, &first) == Ordering::Less);
        assert!(rt; cmp_keys(&last, &above) == Ordering::Less);
        first = below;
        last = above;
    }
    assert_eq!(rt; first.integer(), LEAST_INTEGER);
    assert_eq!(rt; last.integer(), INTEGER_BOUND - 1);
    println!(rt; "below the least: {} bytes", code_len(&first, alloc)?)?;
    println!(rt; "above the greatest: {} bytes", code_len(&last, alloc)?)?;
    Ok(())
}

/// A key at a place of a list, between the keys on both sides.
fn key_at(rt: &impl Abort, alloc: Global, keys: &[Key], place: usize) -> Result<Key, NoMemory> {
    let high = keys.get(place);
    let low = match place.checked_sub(1) {
        Some(before) => keys.get(before),
        None => None,
    };
    match (low, high) {
        (Some(low), Some(high)) => insert(rt, alloc, low, high),
        (Some(low), None) => after(alloc, low),
        (None, high) => between(alloc, None, high),
    }
}

#[test]
fn random_insertions_against_a_sorted_list(rt: HostRuntime) -> Result<(), Fail> {
    let alloc = rt.alloc();
    let mut keys: Vec<Key> = Vec::new(alloc);
    let mut state: u32 = 1;
    for _ in 0..INSERTIONS {
        state = state.wrapping_mul(1_664_525).wrapping_add(1_013_904_223);
        let place = (state >> 16) as usize % (keys.len() + 1);
        let key = key_at(&rt, alloc, keys.as_slice(), place)?;
        keys.insert(place, key)?;
    }
    let mut codes: Vec<Vec<u8>> = Vec::new(alloc);
    let mut longest = 0;
    for key in &keys {
        let code = key.code(alloc)?;
        longest = longest.max(code.len());
        codes.push(code)?;
    }
    let mut sorted = codes.clone()?;
    sorted.sort()?;
    sorted.dedup();
    assert_eq!(rt; sorted.len(), 2000);
    assert!(rt; sorted == codes);
    println!(rt; "random places: {longest} bytes at most")?;
    Ok(())
}

#[test]
fn labels_of_a_small_document(rt: HostRuntime) -> Result<(), Fail> {
    let alloc = rt.alloc();
    let document = Label::document(alloc);
    let root = child(alloc, &document, &Key::whole(alloc, 0))?;
    let attribute = child(alloc, &root, &Key::whole(alloc, -1))?;
    let text = child(alloc, &root, &Key::whole(alloc, 254))?;
    assert!(rt; document.is_empty());
    assert_eq!(rt; root.as_bytes(), [129, 2, 1].as_slice());
    assert_eq!(rt; attribute.as_bytes(), [129, 2, 1, 127, 255, 1].as_slice());
    assert_eq!(rt; text.as_bytes(), [129, 2, 1, 130, 3, 2, 1].as_slice());
    assert_eq!(rt; text.len(), 7);
    assert!(rt; cmp(&document, &root) == Ordering::Less);
    assert!(rt; cmp(&attribute, &text) == Ordering::Less);
    assert!(rt; cmp(&text, &root) == Ordering::Greater);
    assert!(rt; cmp(&text, &text.copy()?) == Ordering::Equal);
    assert!(rt; is_ancestor(&root, &text));
    assert!(rt; is_ancestor(&document, &root));
    assert!(rt; !is_ancestor(&text, &text));
    assert!(rt; !is_ancestor(&attribute, &text));
    let key = key_of_child(alloc, &root, &text)?.ok_or("no child")?;
    assert_eq!(rt; key.integer(), 254);
    assert!(rt; key_of_child(alloc, &document, &text)?.is_none());
    assert!(rt; key_of_child(alloc, &text, &root)?.is_none());
    let read = Label::from_bytes(alloc, text.as_bytes())?;
    assert!(rt; cmp(&Label::from_vec(read.into_vec()), &text) == Ordering::Equal);
    Ok(())
}

#[test]
fn codes_read_back(rt: HostRuntime) -> Result<(), Fail> {
    let alloc = rt.alloc();
    let key = key_from_code(alloc, &[126, 254, 255, 2, 128])?.ok_or("no code")?;
    assert_eq!(rt; key.integer(), -255);
    assert_eq!(rt; key.fraction(), [2, 128].as_slice());
    let refused: [(&[u8], &str); 9] = [
        (&[], "no bytes"),
        (&[128, 2], "no digits"),
        (&[129], "a digit is missing"),
        (&[129, 1], "a digit below 2"),
        (&[130, 2, 5], "one digit is enough"),
        (&[136, 3, 2, 2, 2, 2, 2, 2, 2], "more than 7 digits"),
        (&[129, 2, 128, 2], "the fraction ends with 2"),
        (&[129, 2, 1, 3], "a byte of the fraction is below 2"),
        (
            &[121, 2, 2, 2, 2, 2, 2, 2],
            "the least integer without a fraction",
        ),
    ];
    for (bytes, why) in refused {
        assert!(rt; key_from_code(alloc, bytes)?.is_none(), "{why}");
    }
    Ok(())
}

#[test]
fn lists_and_laws(rt: HostRuntime) -> Result<(), Fail> {
    let alloc = rt.alloc();
    let list = KeyList::from_vec(spread(alloc, 3)?.into_vec());
    assert_eq!(rt; list.as_slice().len(), 3);
    worked_codes();
    code_order();
    label_order();
    insertions_keep_keys();
    Ok(())
}
