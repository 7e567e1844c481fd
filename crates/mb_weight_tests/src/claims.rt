//! Claims of keys, by one thread and by two.

ghost use Rattle.std.specs.Prelude.{◌≡◌};
ghost use Rattle.mb_claims.specs.Claims.{IsPassOf};

use mb_claims::{Claim, Pass, Shards};
use std::test::Fail;
use std::thread::join;

/// The place of the first claim of a pass that isn't answered so.
fn first_other(shards: &Shards, pass: &mut Pass, claims: &[(u64, Claim)]) -> Option<usize>
    requires ours { IsPassOf shards.now pass.old }
    ensures ours { IsPassOf shards.now pass.new }
    ensures number { pass.new.knows.number ≡ pass.old.knows.number }
{
    for (place, (key, answer)) in claims.iter().enumerate() {
        if *key == 0 || shards.claim(pass, *key) != *answer {
            return Some(place);
        }
    }
    None
}

/// Whether each shard has so many words.
fn all_have(shards: &Shards, words: u32) -> bool {
    let count = shards.len();
    for shard in 0..count {
        if shards.words(shard) != words {
            return false;
        }
    }
    true
}

/// How many of the keys 1 to 1,000 a pass is answered so, and the pass.
fn count(shards: &Shards, mut pass: Pass, answer: Claim) -> (u64, Pass)
    requires ours { IsPassOf shards.now pass }
    ensures ours { IsPassOf shards.now result.1 }
    ensures number { result.1.knows.number ≡ pass.knows.number }
{
    let mut times = 0u64;
    for key in 1..1001u64 {
        if shards.claim(&mut pass, key) == answer {
            times = times.wrapping_add(1);
        }
    }
    (times, pass)
}

// By hand: a shard of one word has room for one key, and of two words for two.
#[test]
fn a_full_shard_grows(rt: HostRuntime) -> Result<(), Fail> {
    let (shards, mut root) = Shards::try_new(rt.alloc(), 1, 1)?;
    let mut pass = shards.split(&mut root)?;
    let full = Claim::Full { shard: 0 };
    let first = [(7, Claim::New), (7, Claim::Seen), (9, full), (9, full)];
    assert!(rt; first_other(&shards, &mut pass, &first).is_none());
    shards.gather(&mut root, pass);
    let Ok(grown) = shards.grow(rt.alloc(), &mut root, 0) else {
        panic!(rt; "no memory")
    };
    let mut pass = grown.split(&mut root)?;
    let then = [(9, Claim::New), (7, Claim::Seen), (11, full)];
    assert!(rt; first_other(&grown, &mut pass, &then).is_none());
    Ok(())
}

// By hand: a key's shard is what is left of it by the number of shards.
#[test]
fn each_key_has_its_shard(rt: HostRuntime) -> Result<(), Fail> {
    let (shards, mut root) = Shards::try_new(rt.alloc(), 64, 1)?;
    let mut pass = shards.split(&mut root)?;
    let claims = [
        (18_446_744_073_709_551_615, Claim::New),
        (63, Claim::Full { shard: 63 }),
        (64, Claim::New),
        (128, Claim::Full { shard: 0 }),
        (1, Claim::New),
        (65, Claim::Full { shard: 1 }),
        (18_446_744_073_709_551_615, Claim::Seen),
        (64, Claim::Seen),
    ];
    assert!(rt; first_other(&shards, &mut pass, &claims).is_none());
    Ok(())
}

// By hand: 13 is the number of shards whose divisions are by a constant.
#[test]
fn each_of_thirteen_shards(rt: HostRuntime) -> Result<(), Fail> {
    let (shards, mut root) = Shards::try_new(rt.alloc(), 13, 2)?;
    let mut pass = shards.split(&mut root)?;
    let claims = [
        (13, Claim::New),
        (39, Claim::New),
        (26, Claim::Full { shard: 0 }),
        (12, Claim::New),
        (25, Claim::New),
        (38, Claim::Full { shard: 12 }),
        (18_446_744_073_709_551_615, Claim::New),
        (2, Claim::New),
        (15, Claim::Full { shard: 2 }),
        (39, Claim::Seen),
    ];
    assert!(rt; first_other(&shards, &mut pass, &claims).is_none());
    Ok(())
}

// By hand: three shards of one word, of which the first grows to two words, and then all of them.
#[test]
fn all_shards_grow_at_once(rt: HostRuntime) -> Result<(), Fail> {
    let (shards, mut root) = Shards::try_new(rt.alloc(), 3, 1)?;
    let mut pass = shards.split(&mut root)?;
    let first = [
        (3, Claim::New),
        (4, Claim::New),
        (5, Claim::New),
        (7, Claim::Full { shard: 1 }),
    ];
    assert!(rt; first_other(&shards, &mut pass, &first).is_none());
    shards.gather(&mut root, pass);
    let Ok(grown) = shards.grow(rt.alloc(), &mut root, 0) else {
        panic!(rt; "no memory")
    };
    let Ok(wide) = grown.grow_to(rt.alloc(), &mut root, 2) else {
        panic!(rt; "no memory")
    };
    assert!(rt; all_have(&wide, 2));
    let Ok(same) = wide.grow_to(rt.alloc(), &mut root, 1) else {
        panic!(rt; "no memory")
    };
    assert!(rt; all_have(&same, 2));
    let mut pass = same.split(&mut root)?;
    let then = [
        (3, Claim::Seen),
        (4, Claim::Seen),
        (5, Claim::Seen),
        (6, Claim::New),
        (7, Claim::New),
        (8, Claim::New),
        (9, Claim::Full { shard: 0 }),
    ];
    assert!(rt; first_other(&same, &mut pass, &then).is_none());
    Ok(())
}

// Each key is new for one of two sides alone, whatever the threads do.
#[test]
fn two_sides_win_each_key_once(rt: HostRuntime) -> Result<(), Fail> {
    let (shards, mut root) = Shards::try_new(rt.alloc(), 1, 2048)?;
    let one = shards.split(&mut root)?;
    let other = shards.split(&mut root)?;
    let ((first, one), (second, other)) = join(
        &rt,
        || count(&shards, one, Claim::New),
        || count(&shards, other, Claim::New),
    );
    assert!(rt; first.wrapping_add(second) == 1000);
    shards.gather(&mut root, one);
    shards.gather(&mut root, other);
    let pass = shards.split(&mut root)?;
    let (seen, _pass) = count(&shards, pass, Claim::Seen);
    assert!(rt; seen == 1000);
    Ok(())
}
