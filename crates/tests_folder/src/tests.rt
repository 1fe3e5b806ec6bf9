use bundle_folder::{MemFolder, PackFault, Placed, Replace, Thing, UnpackFault, pack, unpack};
use std::alloc::{AllocError, Global};
use std::test::Fail;

// A folder of these files, whose call with this number fails, if it is not 0.
fn folder_of(alloc: Global, places: &[(&str, &str)], fails: u64) -> Result<MemFolder, AllocError> {
    let mut folder = MemFolder::new(alloc, [fails].to_vec(alloc)?);
    'places: for (place, bytes) in places {
        if folder.can_put(place) {
            folder.put(Placed {
                place: String::from_str(alloc, place)?,
                thing: Thing::File(bytes.as_bytes().to_vec(alloc)?),
            })?;
        }
    }
    Ok(folder)
}

// Says how a packing ends.
fn say_packed(said: &mut Vec<u8>, packed: &Result<Vec<u8>, PackFault>) -> Result<(), AllocError> {
    match packed {
        Ok(text) => said.extend_from_slice(text),
        Err(PackFault::Unlisted(place)) => say_at(said, "unlisted ", place.as_str()),
        Err(PackFault::Unread(path)) => say_at(said, "unread ", path.text()),
        Err(_) => say_at(said, "another fault", ""),
    }
}

// Says a word with a place.
fn say_at(said: &mut Vec<u8>, word: &str, place: &str) -> Result<(), AllocError> {
    said.extend_from_slice(word.as_bytes())?;
    said.extend_from_slice(place.as_bytes())
}

// Says how an unpacking ends.
fn say_unpacked(said: &mut Vec<u8>, ended: &Result<usize, UnpackFault>) -> Result<(), AllocError> {
    match ended {
        Ok(2) => say_at(said, "all", ""),
        Ok(_) => say_at(said, "another number", ""),
        Err(UnpackFault::Unseen(path)) => say_at(said, "unseen ", path.text()),
        Err(UnpackFault::Kept(path)) => say_at(said, "kept ", path.text()),
        Err(UnpackFault::Partly(0, path)) => say_at(said, "none, at ", path.text()),
        Err(UnpackFault::Partly(1, path)) => say_at(said, "one, at ", path.text()),
        Err(_) => say_at(said, "another fault", ""),
    }
}

const FILES: &[(&str, &str)] = &[("b", "2"), ("a/b", "1"), ("out/x", "left out")];

const TEXT: &str = "bundle 1\nfile 1 a/b\n1\nfile 1 b\n2\nend\n";

// The number of a call that fails, how the packing then ends, and how many calls failed.
const PACKINGS: &[(u64, &str, u64)] = &[
    (1, "unlisted .", 1),
    (2, "unread a/b", 1),
    (3, "unread b", 1),
    (4, TEXT, 0),
];

#[test]
fn a_folder_is_packed_whole_or_not_at_all(rt: HostRuntime) -> Result<(), Fail> {
    let alloc = rt.alloc();
    'packings: for (fails, wanted, faults) in PACKINGS {
        let mut said = Vec::new(alloc);
        let mut folder = folder_of(alloc, FILES, *fails)?;
        say_packed(&mut said, &pack(alloc, &mut folder, &["out"]))?;
        assert_eq!(rt; said.as_slice(), wanted.as_bytes());
        assert_eq!(rt; folder.faults(), *faults);
    }
    Ok(())
}

const OUTPUT: &str = "bundle 1\nfile 3 out/a\nnew\nfile 1 report.txt\nr\nend\n";

// The number of a call that fails, and without and with replacing: how the unpacking ends, and how many files are then there.
type Unpacking = (u64, &'static str, usize, &'static str, usize);

const UNPACKINGS: &[Unpacking] = &[
    (1, "unseen out/a", 1, "kept out", 1),
    (2, "unseen report.txt", 1, "kept report.txt", 1),
    (3, "none, at out/a", 1, "none, at out/a", 1),
    (4, "one, at report.txt", 2, "one, at report.txt", 2),
    (5, "all", 3, "all", 3),
];

// Says how an unpacking beside one file ends, and answers how many files are then there.
fn left_by(
    alloc: Global,
    said: &mut Vec<u8>,
    fails: u64,
    replace: Replace,
) -> Result<usize, AllocError> {
    let mut folder = folder_of(alloc, &[("x", "")], fails)?;
    say_unpacked(
        said,
        &unpack(alloc, &mut folder, OUTPUT.as_bytes(), replace),
    )?;
    Ok(folder.things().len())
}

#[test]
fn a_folder_that_fails_says_what_was_made(rt: HostRuntime) -> Result<(), Fail> {
    let alloc = rt.alloc();
    'unpackings: for (fails, plain, count, replaced, left) in UNPACKINGS {
        let mut said = Vec::new(alloc);
        assert_eq!(rt;
            left_by(alloc, &mut said, *fails, Replace::Nothing)?,
            *count
        );
        assert_eq!(rt; said.as_slice(), plain.as_bytes());
        said.clear();
        assert_eq!(rt; left_by(alloc, &mut said, *fails, Replace::Made)?, *left);
        assert_eq!(rt; said.as_slice(), replaced.as_bytes());
    }
    Ok(())
}
