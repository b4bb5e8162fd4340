//! Look-up in an ascending row of keys, for every key whose order is total.
#![tactic(auto)]

mod worked;

ghost use Rattle.std.specs.Prelude.{◌≡◌, ◌<◌, ◌≤◌, T, length, IfSome};
ghost use Rattle.register.specs.Rows.{ascending, place_of, count_below, IsPlace, InsertionPoint, IsExact, ended};
ghost use Rattle.std.specs.Cmp.{IsTotalOrder};
ghost use Rattle.std.specs.Result.{result_ok};

// The standard search, with what its answer tells of an ascending row: the place where the key was met, and the place where the search ended.
fn search<K: Ord>(keys: &[K], key: &K) -> Result<usize, usize>
    ensures met_within { IfSome (result_ok result) (λ i. i < length keys.now) }
    ensures met_answer { (o : IsTotalOrder K.Ord.cmp) → T (ascending K.Ord.cmp keys.now) → result_ok result ≡ place_of K.Ord.cmp keys.now key.now }
    ensures met_place { (o : IsTotalOrder K.Ord.cmp) → IsExact K.Ord.cmp → T (ascending K.Ord.cmp keys.now) → IsPlace keys.now key.now (result_ok result) }
    ensures ended_within { ended result ≤ length keys.now }
    ensures ended_answer { (o : IsTotalOrder K.Ord.cmp) → T (ascending K.Ord.cmp keys.now) → ended result ≡ count_below K.Ord.cmp keys.now key.now }
    ensures ended_point { (o : IsTotalOrder K.Ord.cmp) → T (ascending K.Ord.cmp keys.now) → InsertionPoint K.Ord.cmp keys.now key.now (ended result) }
{
    keys.binary_search(key)
}

/// The place of the key in an ascending row, or `None` where it stands nowhere.
pub fn find<K: Ord>(keys: &[K], key: &K) -> Option<usize>
    ensures within { IfSome result (λ i. i < length keys.now) }
    ensures answer { T (ascending K.Ord.cmp keys.now) → result ≡ place_of K.Ord.cmp keys.now key.now }
    ensures place { IsExact K.Ord.cmp → T (ascending K.Ord.cmp keys.now) → IsPlace keys.now key.now result }
{
    search(keys, key).ok()
}

/// The place in an ascending row where the key belongs: as many keys of the row are below it.
pub fn insertion_point<K: Ord>(keys: &[K], key: &K) -> usize
    ensures within { result ≤ length keys.now }
    ensures answer { T (ascending K.Ord.cmp keys.now) → result ≡ count_below K.Ord.cmp keys.now key.now }
    ensures point { T (ascending K.Ord.cmp keys.now) → InsertionPoint K.Ord.cmp keys.now key.now result }
{
    search(keys, key).unwrap_or_else(|i| i)
}

#[cfg(test)]
mod tests {
    use crate::worked::{code_insertion_point, code_place, number_place};
    use crate::{find, insertion_point};

    // A number, its place in the row 3, 7, 20, and where it belongs.
    const PLACES: [(u32, Option<usize>, usize); 7] = [
        (0, None, 0),
        (3, Some(0), 0),
        (4, None, 1),
        (7, Some(1), 1),
        (19, None, 2),
        (20, Some(2), 2),
        (u32::MAX, None, 3),
    ];

    #[test]
    fn keys_are_found(rt: HostRuntime) {
        for (number, place, point) in PLACES {
            assert_eq!(rt; number_place(&[3, 7, 20], number), place);
            assert_eq!(rt; insertion_point(&[3, 7, 20], &number), point);
        }
        assert_eq!(rt; number_place(&[], 3), None, "an empty row");
        assert_eq!(rt; insertion_point::<u32>(&[], &3), 0, "an empty row");
        assert_eq!(rt; find(&[5u32], &5), Some(0), "one key");
        assert_eq!(rt; find(&[5u32], &6), None, "one key");
        let codes = [*b"ALFA0001", *b"ALFA0003", *b"BETA0001"];
        assert_eq!(rt; code_place(&codes, b"ALFA0003"), Some(1));
        assert_eq!(rt; code_place(&codes, b"ALFA0002"), None);
        assert_eq!(rt; code_insertion_point(&codes, b"ALFA0002"), 1);
        assert_eq!(rt; code_insertion_point(&codes, b"ALFB0000"), 2);
    }
}
