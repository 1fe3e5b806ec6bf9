//! Builds over a store of graphs in memory, of which calls fail.

use bx_io::{FailKeeper, Keeper, Listed, MemKeeper, NoFaultKeeper, is_name};
use std::alloc::Global;
use std::sync::Wait;
use std::test::Fail;
use std::thread::Threads;
use tests_with_engine::{add_graph_command, empty_keeper};

/// Each file of a directory that ends in `.c` is copied.
const INPUT: &str = r#"bundle 1
file 82 build.dsc
const fs = glob(d`s`, "*.c").map(f => Transformer.copyFile(f, p`out/${f.name}`));

file 1 s/a.c
A
end
"#;

const OUTPUT: &str = "bundle 1
file 1 out/a.c
A
file 48 report.txt
report 1
verdict succeeded
pip 0 copy succeeded

end
notes hits 0
ran 0
late 0
store-faults 0
starved 0
graph ";

/// The same specification over another tree.
const OTHER_TREE: &str = r#"bundle 1
file 82 build.dsc
const fs = glob(d`s`, "*.c").map(f => Transformer.copyFile(f, p`out/${f.name}`));

file 1 s/b.c
B
end
"#;

const OTHER_OUTPUT: &str = "bundle 1
file 1 out/b.c
B
file 48 report.txt
report 1
verdict succeeded
pip 0 copy succeeded

end
notes hits 0
ran 0
late 0
store-faults 0
starved 0
graph ";

/// A specification that differs by a space, over the first tree.
const OTHER_SPECIFICATION: &str = r#"bundle 1
file 83 build.dsc
const fs = glob(d`s`, "*.c").map(f => Transformer.copyFile(f, p`out/${f.name}`)) ;

file 1 s/a.c
A
end
"#;

const WITH_GRAPHS: &[&str] = &["build", "--graph-cache"];

const WITHOUT_CACHE: &[&str] = &["build", "--graph-cache", "--no-cache"];

/// Whether a build of an input over a store of graphs gives this output, and says this of where its pips came from.
fn tells<H: Threads + Wait + Sync, M: Keeper>(
    rt: &H,
    alloc: Global,
    words: &[&str],
    input: &str,
    output: &str,
    graphs: &mut M,
    line: &str,
) -> Result<bool, Fail> {
    let mut keeper = NoFaultKeeper::new(alloc);
    let mut seen = Vec::new(alloc);
    add_graph_command(rt, alloc, words, input, &mut keeper, graphs, &mut seen)?;
    match seen.strip_prefix(output.as_bytes()) {
        Some(rest) => Ok(rest == line.as_bytes()),
        None => Ok(false),
    }
}

/// The same of the first input.
fn says<H: Threads + Wait + Sync, M: Keeper>(
    rt: &H,
    alloc: Global,
    words: &[&str],
    graphs: &mut M,
    line: &str,
) -> Result<bool, Fail> {
    tells(rt, alloc, words, INPUT, OUTPUT, graphs, line)
}

const HIT: &str = "hit\nstatus 0";

const RAN: &str = "ran\nstatus 0";

const FAULT: &str = "fault\nstatus 0";

#[test]
fn pips_are_taken_where_they_were_kept(rt: HostRuntime) -> Result<(), Fail> {
    let alloc = rt.alloc();
    let mut graphs = NoFaultKeeper::new(alloc);
    for line in [RAN, HIT, HIT] {
        assert!(rt; says(&rt, alloc, WITH_GRAPHS, &mut graphs, line)?);
    }
    Ok(())
}

#[test]
fn two_trees_share_a_store(rt: HostRuntime) -> Result<(), Fail> {
    let alloc = rt.alloc();
    let mut graphs = NoFaultKeeper::new(alloc);
    // One key has one entry: that of the tree which was built last.
    for (input, output, line) in [
        (INPUT, OUTPUT, RAN),
        (OTHER_TREE, OTHER_OUTPUT, RAN),
        (OTHER_TREE, OTHER_OUTPUT, HIT),
        (INPUT, OUTPUT, RAN),
        (INPUT, OUTPUT, HIT),
        // Another specification has another key, under which another entry stands beside the first.
        (OTHER_SPECIFICATION, OUTPUT, RAN),
        (OTHER_SPECIFICATION, OUTPUT, HIT),
        (INPUT, OUTPUT, HIT),
    ] {
        assert!(rt; tells(&rt, alloc, WITH_GRAPHS, input, output, &mut graphs, line)?);
    }
    Ok(())
}

/// The key, the specification, a listing and the entry are put.
const PUTS: u64 = 4;

#[test]
fn a_build_is_the_same_where_a_put_fails(rt: HostRuntime) -> Result<(), Fail> {
    let alloc = rt.alloc();
    for number in 1..=PUTS {
        let mut graphs = empty_keeper(alloc, number)?;
        for line in [FAULT, RAN, HIT] {
            assert!(rt; says(&rt, alloc, WITH_GRAPHS, &mut graphs, line)?);
        }
    }
    let mut graphs = empty_keeper(alloc, PUTS + 1)?;
    assert!(rt; says(&rt, alloc, WITH_GRAPHS, &mut graphs, RAN)?);
    Ok(())
}

/// What is said of a first build and of the next, where each reader fails at its call with this number. The first finds
/// no entry; the next gets the entry, the key, the specification and a listing.
fn lines(number: u64) -> [&'static str; 2] {
    match number {
        1 => [FAULT, FAULT],
        2..=4 => [RAN, FAULT],
        _ => [RAN, HIT],
    }
}

#[test]
fn a_build_is_the_same_where_a_get_fails(rt: HostRuntime) -> Result<(), Fail> {
    let alloc = rt.alloc();
    for number in 1..=5u64 {
        let mut graphs = FailKeeper::new(empty_keeper(alloc, 0)?, [number].to_vec(alloc)?);
        for line in lines(number) {
            assert!(rt; says(&rt, alloc, WITH_GRAPHS, &mut graphs, line)?);
        }
    }
    Ok(())
}

// The name of the one entry that a store holds.
fn entry_name(alloc: Global, graphs: &mut MemKeeper) -> Result<String, Fail> {
    let Listed::Names(names) = graphs.names(alloc) else {
        return Err("no names are told".into());
    };
    for name in names {
        if name.starts_with("e/") {
            return Ok(name);
        }
    }
    Err("there is no entry".into())
}

#[test]
fn a_build_is_the_same_over_a_damaged_entry(rt: HostRuntime) -> Result<(), Fail> {
    let alloc = rt.alloc();
    let mut graphs = empty_keeper(alloc, 0)?;
    assert!(rt; says(&rt, alloc, WITH_GRAPHS, &mut graphs, RAN)?);
    let name = entry_name(alloc, &mut graphs)?;
    assert!(rt; is_name(name.as_bytes()));
    let Some(held) = graphs.held(name.as_str()) else {
        return Err("the entry is not held".into());
    };
    let whole = held.to_vec(alloc)?;
    for place in 0..whole.len() {
        // Some byte of each line; that none is read which is damaged anywhere, is tried where entries are found.
        if place % 16 == 0 {
            let mut bytes = whole.clone()?;
            bytes[place] = bytes[place] ^ 1;
            graphs.set_raw(alloc, name.as_str(), bytes)?;
            // It is not taken, and is kept anew.
            for line in [RAN, HIT] {
                assert!(rt; says(&rt, alloc, WITH_GRAPHS, &mut graphs, line)?);
            }
        }
    }
    Ok(())
}

fn names(alloc: Global, graphs: &mut MemKeeper) -> usize {
    match graphs.names(alloc) {
        Listed::Names(names) => names.len(),
        Listed::Failed | Listed::Memory => usize::MAX,
    }
}

#[test]
fn no_store_of_graphs_is_touched_without_the_cache(rt: HostRuntime) -> Result<(), Fail> {
    let alloc = rt.alloc();
    let mut graphs = empty_keeper(alloc, 1)?;
    assert!(rt; says(&rt, alloc, WITHOUT_CACHE, &mut graphs, RAN)?);
    assert!(rt; says(&rt, alloc, WITHOUT_CACHE, &mut graphs, RAN)?);
    assert_eq!(rt; graphs.faults(), 0);
    // The first call, which fails, is this one.
    assert_eq!(rt; names(alloc, &mut graphs), usize::MAX);
    assert_eq!(rt; names(alloc, &mut graphs), 0);
    Ok(())
}
