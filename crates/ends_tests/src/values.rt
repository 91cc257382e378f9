// What the calls on values answer for rows of them.
use site_base::{
    Hash, ItemName, List, SitePath, Text, Unlike, Value, code, compare, copy, equals, is_true,
    same_code, value_text,
};
use std::alloc::Global;
use std::cmp::Ordering;

fn text(alloc: Global, text: &str) -> Option<Value> {
    Some(Value::Text(Text::copy(alloc, text).ok()?))
}

fn shown(value: Option<&Value>) -> &str {
    match value {
        Some(Value::Text(text)) => text.as_str(),
        Some(_) => "another value",
        None => "absent",
    }
}

fn number(value: Option<&Value>) -> Option<i64> {
    match value {
        Some(Value::Int(number)) => Some(*number),
        _ => None,
    }
}

fn set(alloc: Global, hash: &mut Hash, key: &str, value: Option<Value>) -> bool {
    let (Ok(key), Some(value)) = (Text::copy(alloc, key), value) else {
        return false;
    };
    hash.set(key, value).is_ok()
}

fn first_key(hash: &Hash) -> &str {
    match hash.as_slice() {
        [first, ..] => first.key.as_str(),
        [] => "",
    }
}

#[test]
fn sets_and_gets_by_key(rt: HostRuntime) {
    let alloc = rt.alloc();
    let mut hash = Hash::new(alloc);
    assert!(rt; set(alloc, &mut hash, "a", text(alloc, "x\n")));
    assert!(rt; set(alloc, &mut hash, "b", text(alloc, "y z")));
    assert!(rt; hash.fit(1).is_ok() && shown(hash.get("b")) == "y z");
    assert!(rt; shown(hash.get("c")) == "absent");
    assert!(rt; set(alloc, &mut hash, "a", Some(Value::Int(1))));
    assert!(rt; hash.len() == 2 && hash.as_slice().len() == 2);
    assert!(rt; first_key(&hash) == "a" && number(hash.get("a")) == Some(1));
}

fn set_keys(alloc: Global, hash: &mut Hash, turn: i64) -> Option<()> {
    for number in 0..100 {
        let key = format!(in alloc; "key {number}").ok()?;
        hash.set(Text::from_string(key).ok()?, Value::Int(turn))
            .ok()?;
    }
    Some(())
}

// A hundred keys, each set twice, so that the later of them are found by an index.
fn hash_of_many(alloc: Global) -> Option<Hash> {
    let mut hash = Hash::new(alloc);
    set_keys(alloc, &mut hash, 0)?;
    set_keys(alloc, &mut hash, 1)?;
    Some(hash)
}

fn takes_once(hash: &mut Hash, key: &str) -> bool {
    let Ok(taken) = hash.take(key) else {
        return false;
    };
    number(taken.as_ref()) == Some(1) && matches!(hash.get(key), Some(Value::Nil))
}

#[test]
fn finds_one_of_many_keys(rt: HostRuntime) {
    match hash_of_many(rt.alloc()) {
        Some(mut hash) => {
            assert!(rt; hash.len() == 100);
            assert!(rt; number(hash.get("key 99")) == Some(1));
            assert!(rt; number(hash.get("key 7")) == Some(1));
            assert!(rt; hash.get("key 100").is_none());
            assert!(rt; takes_once(&mut hash, "key 42") && hash.len() == 100);
        }
        None => assert!(rt; false, "no hash"),
    }
}

fn takes(hash: &mut Hash, key: &str, want: &str) -> bool {
    match hash.take(key) {
        Ok(taken) => shown(taken.as_ref()) == want,
        Err(_) => false,
    }
}

#[test]
fn takes_a_value_out(rt: HostRuntime) {
    let alloc = rt.alloc();
    let mut hash = Hash::new(alloc);
    assert!(rt; set(alloc, &mut hash, "a", text(alloc, "x")));
    assert!(rt; takes(&mut hash, "a", "x"));
    assert!(rt; matches!(hash.get("a"), Some(Value::Nil)));
    assert!(rt; takes(&mut hash, "b", "absent"));
}

fn list_of_three(alloc: Global) -> Option<Value> {
    let mut list = List::new(alloc);
    list.push(Value::Int(1)).ok()?;
    list.push(Value::Nil).ok()?;
    list.push(text(alloc, "a")?).ok()?;
    Some(Value::List(list))
}

fn last(list: &List) -> &str {
    match list.len() {
        0 => "absent",
        count => shown(Some(list.at(count - 1))),
    }
}

#[test]
fn adds_at_the_end(rt: HostRuntime) {
    assert!(rt; List::new(rt.alloc()).is_empty());
    match list_of_three(rt.alloc()) {
        Some(Value::List(list)) => assert!(rt; list.len() == 3 && last(&list) == "a"),
        _ => assert!(rt; false, "no list"),
    }
}

// A shared list that one holder adds to, and the other.
fn pushes_alone(alloc: Global) -> Option<bool> {
    let Some(Value::List(list)) = list_of_three(alloc) else {
        return None;
    };
    let mut changed = list.into_shared().ok()?;
    let other = changed.share(alloc).ok()?;
    changed.push(text(alloc, "b")?).ok()?;
    Some(changed.len() == 4 && last(&changed) == "b" && other.len() == 3 && last(&other) == "a")
}

// A shared hash of which one holder sets a key and takes one, and the other.
fn changes_alone(alloc: Global) -> Option<bool> {
    let mut changed = hash_of_many(alloc)?.into_shared().ok()?;
    let other = changed.share(alloc).ok()?;
    changed
        .set(Text::copy(alloc, "key 3").ok()?, Value::Int(2))
        .ok()?;
    let taken = changed.take("key 5").ok()?;
    changed
        .push(Text::copy(alloc, "key 100").ok()?, Value::Int(3))
        .ok()?;
    let kept = number(other.get("key 3")) == Some(1) && number(other.get("key 5")) == Some(1);
    let set = number(changed.get("key 3")) == Some(2) && number(changed.get("key 100")) == Some(3);
    Some(kept && set && number(taken.as_ref()) == Some(1) && other.len() == 100)
}

#[test]
fn changes_of_one_holder_leave_the_others(rt: HostRuntime) {
    assert!(rt; pushes_alone(rt.alloc()) == Some(true));
    assert!(rt; changes_alone(rt.alloc()) == Some(true));
}

// A list of a hash with a list in it, of a truth, and of an item.
fn sample(alloc: Global) -> Option<Value> {
    let mut hash = Hash::new(alloc);
    let key = Text::copy(alloc, "k\u{e9}").ok()?;
    hash.set(key, list_of_three(alloc)?).ok()?;
    let mut outer = List::new(alloc);
    outer.push(Value::Hash(hash)).ok()?;
    outer.push(Value::Bool(true)).ok()?;
    let path = SitePath::read(alloc, "a/b.md").ok()?;
    outer.push(Value::Item(ItemName { path, part: 12 })).ok()?;
    Some(Value::List(outer))
}

fn is_shown(alloc: Global, value: &Value, want: &str) -> bool {
    match value_text(alloc, value) {
        Ok(text) => text.as_str() == want,
        Err(_) => false,
    }
}

fn has_code(alloc: Global, value: &Value, want: &[u8]) -> bool {
    match code(alloc, value) {
        Ok(code) => code.as_slice() == want,
        Err(_) => false,
    }
}

// A share of a value, and one of what it is once it can be shared.
fn is_shared(alloc: Global, value: &Value) -> bool {
    let Ok(owned) = copy(alloc, value) else {
        return false;
    };
    let Ok(holder) = owned.into_shared() else {
        return false;
    };
    match copy(alloc, &holder) {
        Ok(other) => equals(value, &holder) && equals(value, &other),
        Err(_) => false,
    }
}

fn is_written(alloc: Global, value: Option<Value>, shown: &str, written: &str) -> bool {
    let Some(value) = value else {
        return false;
    };
    is_shown(alloc, &value, shown)
        && has_code(alloc, &value, written.as_bytes())
        && same_code(&value, written.as_bytes())
        && !same_code(&value, b"n;")
        && is_shared(alloc, &value)
}

#[test]
fn writes_single_values(rt: HostRuntime) {
    let alloc = rt.alloc();
    assert!(rt; is_written(alloc, Some(Value::Nil), "", "n"));
    assert!(rt; is_written(alloc, Some(Value::Bool(false)), "false", "f"));
    assert!(rt; is_written(alloc, Some(Value::Int(-5)), "-5", "i-5;"));
    let least = "-9223372036854775808";
    assert!(rt;
        is_written(
            alloc,
            Some(Value::Int(i64::MIN)),
            least,
            "i-9223372036854775808;"
        )
    );
    assert!(rt; is_written(alloc, Some(Value::Range(-1, 20)), "-1..20", "r-1;20;"));
}

#[test]
fn writes_texts_and_lists(rt: HostRuntime) {
    let alloc = rt.alloc();
    assert!(rt; is_written(alloc, text(alloc, "ab"), "ab", "s2:ab"));
    let written = "l3:h1:s3:k\u{e9}l3:i1;ns1:atps6:a/b.md12;";
    assert!(rt; is_written(alloc, sample(alloc), "true", written));
    assert!(rt; is_written(alloc, list_of_three(alloc), "1a", "l3:i1;ns1:a"));
}

fn compares(first: Option<Value>, second: Option<Value>, want: Result<Ordering, Unlike>) -> bool {
    match (first, second) {
        (Some(first), Some(second)) => compare(&first, &second) == want,
        _ => false,
    }
}

#[test]
fn compares_like_kinds(rt: HostRuntime) {
    let alloc = rt.alloc();
    assert!(rt; compares(Some(Value::Int(1)), text(alloc, "1"), Err(Unlike)));
    assert!(rt; compares(Some(Value::Nil), Some(Value::Nil), Err(Unlike)));
    assert!(rt;
        compares(
            Some(Value::Int(1)),
            Some(Value::Int(-2)),
            Ok(Ordering::Greater)
        )
    );
    assert!(rt; compares(text(alloc, "a"), text(alloc, "ab"), Ok(Ordering::Less)));
}

fn equal(first: Option<Value>, second: Option<Value>) -> Option<bool> {
    Some(equals(&first?, &second?))
}

#[test]
fn tells_equal_and_true_values(rt: HostRuntime) {
    let alloc = rt.alloc();
    assert!(rt; equal(Some(Value::Int(1)), text(alloc, "1")) == Some(false));
    assert!(rt; !is_true(&Value::Nil) && !is_true(&Value::Bool(false)));
    assert!(rt; is_true(&Value::Int(0)));
}
