//! The words of the top call over a store that it is given.
use crate::session::{Case, serve};
use ob_store::MemStore;
use std::test::Fail;

const CASES: [Case; 3] = [
    Case {
        words: "--plan small --pack 2 --buffer 7 --depth 8 --trace",
        text: "CREATE TABLE t (id INT) CAPACITY 4;",
        answers: "= created\n",
        trace: "M 1 2 50\nW 1 0\nW 1 1\n",
        status: 0,
    },
    Case {
        words: "--pack 2 --buffer 6 --trace",
        text: "CREATE TABLE t (id INT) CAPACITY 4;",
        answers: "! usage\n",
        trace: "",
        status: 2,
    },
    // a store that it is given is changed by nobody
    Case {
        words: "--meddle 9:fail --trace",
        text: "CREATE TABLE t (id INT) CAPACITY 4;",
        answers: "! usage\n",
        trace: "",
        status: 2,
    },
];

#[test]
fn words_are_taken_or_not(rt: HostRuntime) -> Result<(), Fail> {
    let a = rt.alloc();
    for case in &CASES {
        serve(&rt, a, case, &mut MemStore::new(a))?;
    }
    Ok(())
}
