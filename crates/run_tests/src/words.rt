//! The words of the command line.
use kq_command::{Order, parse_words};
use kq_run::Fault;
use std::alloc::Global;
use std::process::Abort;
use std::test::Fail;

pub fn replay_of(rt: &HostRuntime, workers: u32, file: &str) -> Result<Order, Fail> {
    let file = String::from_str(rt.alloc(), file)?;
    Ok(Order::Replay { workers, file })
}

fn live_of(rt: &HostRuntime, threads: u32, file: &str) -> Result<Order, Fail> {
    let file = String::from_str(rt.alloc(), file)?;
    Ok(Order::Live { threads, file })
}

fn book_of(rt: &HostRuntime, threads: u32, file: &str) -> Result<Order, Fail> {
    let file = String::from_str(rt.alloc(), file)?;
    Ok(Order::Book { threads, file })
}

/// Whether the words give this order.
fn gives(alloc: Global, words: &[&str], order: &Order) -> bool {
    match parse_words(alloc, words) {
        Ok(given) => given == *order,
        Err(_) => false,
    }
}

/// Whether the words are none of the program's.
fn is_refused(alloc: Global, words: &[&str]) -> bool {
    matches!(parse_words(alloc, words), Err(Fault::Usage))
}

fn assert_gives<R: Abort + AllocGlobal>(
    rt: &R,
    words: &[&str],
    order: Result<Order, Fail>,
) -> Result<(), Fail> {
    let order = order?;
    assert!(rt; gives(rt.alloc(), words, &order));
    Ok(())
}

#[test]
fn words_give_orders(rt: HostRuntime) -> Result<(), Fail> {
    let two = ["replay", "--workers", "2", "f"];
    assert_gives(&rt, &two, replay_of(&rt, 2, "f"))?;
    let joined = ["replay", "f", "--workers=256"];
    assert_gives(&rt, &joined, replay_of(&rt, 256, "f"))?;
    assert_gives(&rt, &["replay", "-"], replay_of(&rt, 1, "-"))?;
    assert_gives(&rt, &[], replay_of(&rt, 1, "-"))
}

#[test]
fn other_words_are_refused(rt: HostRuntime) {
    let all: [&[&str]; 5] = [
        &["replay"],
        &["replay", "f", "g"],
        &["replay", "--workers", "0", "f"],
        &["replay", "--workers", "257", "f"],
        &["--help"],
    ];
    for words in all {
        assert!(rt; is_refused(rt.alloc(), words));
    }
}

#[test]
fn words_give_live_orders(rt: HostRuntime) -> Result<(), Fail> {
    let many = ["live", "--threads", "64", "f"];
    assert_gives(&rt, &many, live_of(&rt, 64, "f"))?;
    assert_gives(&rt, &["live", "-"], live_of(&rt, 1, "-"))?;
    assert_gives(&rt, &["book", "f", "--threads=2"], book_of(&rt, 2, "f"))
}

#[test]
fn other_live_words_are_refused(rt: HostRuntime) {
    let all: [&[&str]; 5] = [
        &["live"],
        &["book", "f", "g"],
        &["live", "--threads", "0", "f"],
        &["book", "--threads", "65", "f"],
        &["live", "--workers", "1", "f"],
    ];
    for words in all {
        assert!(rt; is_refused(rt.alloc(), words));
    }
}
