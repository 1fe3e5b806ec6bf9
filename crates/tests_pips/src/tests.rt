use bx_digest::{Digest, NotHex, digest_of};
use bx_tree::{Path, Text, Tree, read_bundle, write_bundle};
use pip_model::{Arguments, FileInputs, MAX_PIPS, Pip, PipKind, PipList, Plan, WriteDesc};
use std::alloc::Global;
use std::test::Fail;

const VECTORS: &[(&[u8], &str)] = &[
    (
        b"",
        "e3b0c44298fc1c149afbf4c8996fb92427ae41e4649b934ca495991b7852b855",
    ),
    (
        b"abc",
        "ba7816bf8f01cfea414140de5dae2223b00361a396177a9cb410ff61f20015ad",
    ),
];

#[test]
fn digests_are_those_of_the_standard(rt: HostRuntime) -> Result<(), Fail> {
    for (bytes, text) in VECTORS {
        assert_eq!(rt; digest_of(bytes).hex(rt.alloc())?.as_str(), *text);
        assert_eq!(rt; Digest::from_hex(text.as_bytes()), Ok(digest_of(bytes)));
    }
    assert_eq!(rt; Digest::from_hex(b"0"), Err(NotHex));
    Ok(())
}

#[test]
fn files_make_a_tree(rt: HostRuntime) -> Result<(), Fail> {
    let files = Vec::new(rt.alloc());
    let tree = Tree::of(files);
    let text = write_bundle(rt.alloc(), &tree)?;
    assert!(rt; text.as_slice() == b"bundle 1\nend\n".as_slice());
    Ok(())
}

fn path(alloc: Global, text: &str) -> Result<Path, Fail> {
    Ok(Path::read(alloc, text.as_bytes())?)
}

const FILES: &[u8] = b"bundle 1\nfile 1 a-b\nx\nfile 2 a/c\nhi\nend\n";

// Whether this is at a path of the tree of these files.
fn is_found(alloc: Global, at: &str, bytes: Option<&[u8]>) -> Result<bool, Fail> {
    let tree = read_bundle(alloc, FILES)?;
    Ok(tree.find(&path(alloc, at)?) == bytes)
}

#[test]
fn a_file_is_found_at_its_path_alone(rt: HostRuntime) -> Result<(), Fail> {
    assert!(rt; is_found(rt.alloc(), "a/c", Some(b"hi"))?);
    assert!(rt; is_found(rt.alloc(), "a", None)?);
    assert!(rt; !is_found(rt.alloc(), "a/c", Some(b"ho"))?);
    Ok(())
}

fn no_files(alloc: Global) -> FileInputs {
    FileInputs::of(Vec::new(alloc))
}

#[test]
fn lists_give_back_what_they_have(rt: HostRuntime) -> Result<(), Fail> {
    let mut texts = Vec::new(rt.alloc());
    texts.push(Text::new(rt.alloc(), Vec::new(rt.alloc()))?)?;
    assert_eq!(rt; Arguments::of(texts).into_texts().len(), 1);
    assert_eq!(rt; no_files(rt.alloc()).into_files().len(), 0);
    Ok(())
}

// The pip 0 alone, which writes `out/a`.
fn one_pip(alloc: Global) -> Result<PipList, Fail> {
    let spec = path(alloc, "build.dsc")?;
    let to = path(alloc, "out/a")?;
    let text = Text::new(alloc, Vec::new(alloc))?;
    let kind = PipKind::Write(WriteDesc { to, text });
    let pip = Pip { spec, kind };
    let mut pips = PipList::new(alloc);
    if !pips.fits(&pip) {
        drop(pip);
        return Err(Fail::from("the pip does not fit"));
    }
    pips.push(pip)?;
    Ok(pips)
}

// Whether pip 0 can produce a file at a path.
fn can_produce(alloc: Global, at: &str) -> Result<bool, Fail> {
    let pips = one_pip(alloc)?;
    if pips.pips().len() > MAX_PIPS {
        return Err(Fail::from("too many pips"));
    }
    let plan = Plan::build(alloc, pips, 1)?;
    if plan.pips().is_empty() {
        return Err(Fail::from("no pip"));
    }
    Ok(plan.can_produce(0, &path(alloc, at)?))
}

#[test]
fn a_pip_can_produce_its_file(rt: HostRuntime) -> Result<(), Fail> {
    assert!(rt; can_produce(rt.alloc(), "out/a")?);
    assert!(rt; !can_produce(rt.alloc(), "out/b")?);
    Ok(())
}
