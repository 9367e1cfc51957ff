ghost use Rattle.std.specs.Prelude.{◌≡◌, ◌||◌, false, IfOk, IsTrue};
ghost use Rattle.fal_base.specs.Answer.{is_root};
ghost use Rattle.fal_coord.specs.Judged.{is_for_rows};
ghost use Rattle.fal_tree.specs.Refused.{IsOfTree};

use fal_base::{Cred, Dentry, Duplicate, Errno, Inode, Kind, Op, Path, PathArg, Reply, Update};
use fal_coord::{Verdict, counted, verdict};
use fal_dentry::{Replica, Walk};
use fal_tree::PlainTree;
use std::alloc::Global;
use std::process::Abort;
use std::test::Fail;

// A tree, all its rows as they are told, and a replica of all its directories.
#[derive(Drop)]
struct Site {
    alloc: Global,
    tree: PlainTree,
    rows: Vec<Update>,
    replica: Replica,
}

fn dentry_of(inode: Inode) -> Dentry {
    Dentry {
        ino: inode.ino,
        mode: inode.mode,
        uid: inode.uid,
        gid: inode.gid,
    }
}

// A call of root, by its letter, on this path.
fn set_up(alloc: Global, letter: u8, path: &[u8]) -> Result<Op, Fail> {
    let path = PathArg::read(alloc, path)?;
    match letter {
        b'd' => Ok(Op::Mkdir { path, mode: 0o755 }),
        b'f' => Ok(Op::Create { path, mode: 0o644 }),
        _ => Ok(Op::Chown {
            path,
            uid: 5,
            gid: 5,
        }),
    }
}

// The empty directory /a of 5, directory /b of root with directory x in it, and file /f of root.
fn tree_of_four(alloc: Global) -> Result<PlainTree, Fail> {
    let mut tree = PlainTree::new(alloc)?;
    for (letter, path, ino) in [
        (b'd', b"/a".as_slice(), 256),
        (b'o', b"/a", 0),
        (b'd', b"/b", 512),
        (b'd', b"/b/x", 768),
        (b'f', b"/f", 1024),
    ] {
        let op = set_up(alloc, letter, path)?;
        tree.apply(&Cred { uid: 0, gid: 0 }, &op, ino)?;
    }
    Ok(tree)
}

fn site_of(alloc: Global) -> Result<Site, Fail> {
    let tree = tree_of_four(alloc)?;
    let mut rows = Vec::new(alloc);
    let mut replica = Replica::new(alloc);
    for line in tree.lines()? {
        if line.inode.kind == Kind::Dir {
            replica.reserve(1)?;
            replica.install(line.key.copy()?, dentry_of(line.inode));
        }
        let row = Some(line.inode);
        rows.push(Update { key: line.key, row })?;
    }
    Ok(Site {
        alloc,
        tree,
        rows,
        replica,
    })
}

fn path_of(alloc: Global, text: &[u8]) -> Result<Path, Fail>
    ensures { IfOk result (λ path. is_root path ≡ false) }
{
    let path = Path::read(alloc, text)?;
    if path.names().is_empty() {
        return Err(Fail::from("no last name"));
    }
    Ok(path)
}

// The directory of the path's last name, and the numbers passed.
fn end_of(site: &Site, cred: &Cred, path: &Path) -> Result<(Option<Dentry>, Vec<u64>), Fail> {
    match site.replica.walk(cred, path, &[])? {
        Walk::Ready { parent, inos, .. } => Ok((parent, inos)),
        _ => Err(Fail::from("no walk")),
    }
}

// What a verdict comes to once the rows in the directory that it names are counted.
fn settled(site: &Site, verdict: Verdict) -> Verdict {
    let Verdict::Count { dir, then } = verdict else {
        return verdict;
    };
    let mut count = 0;
    for update in site.rows.as_slice() {
        if update.key.parent == dir {
            count = 1;
        }
    }
    counted(&[0, count], then)
}

// The errno of the settled verdict, and that of the plain tree's answer.
fn both(
    site: &Site,
    cred: &Cred,
    op: &Op,
    parents: &[Option<Dentry>],
    inos: &[u64],
) -> Result<[Option<Errno>; 2], Fail>
    requires rows { IsTrue (is_for_rows op.now parents.now) }
    requires tree { IsOfTree op.now }
{
    let verdict = verdict(site.alloc, cred, op, parents, inos, &site.rows)?;
    let judged = match settled(site, verdict) {
        Verdict::Fail(errno) => Some(errno),
        _ => None,
    };
    let told = match site.tree.answer(cred, op)? {
        Reply::Fail(errno) => Some(errno),
        _ => None,
    };
    Ok([judged, told])
}

fn chmod(site: &Site, cred: &Cred, path: Path) -> Result<[Option<Errno>; 2], Fail> {
    let (parent, inos) = end_of(site, cred, &path)?;
    let path = PathArg::Good(path);
    let op = Op::Chmod { path, mode: 0o700 };
    both(site, cred, &op, &[parent], &inos)
}

fn chown(site: &Site, cred: &Cred, path: Path) -> Result<[Option<Errno>; 2], Fail> {
    let (parent, inos) = end_of(site, cred, &path)?;
    let path = PathArg::Good(path);
    let op = Op::Chown {
        path,
        uid: 5,
        gid: 5,
    };
    both(site, cred, &op, &[parent], &inos)
}

fn rmdir(site: &Site, cred: &Cred, path: Path) -> Result<[Option<Errno>; 2], Fail>
    requires { is_root path ≡ false }
{
    let (parent, inos) = end_of(site, cred, &path)?;
    let path = PathArg::Good(path);
    both(site, cred, &Op::Rmdir { path }, &[parent], &inos)
}

fn rename(site: &Site, cred: &Cred, from: Path, to: Path) -> Result<[Option<Errno>; 2], Fail>
    requires { (is_root from || is_root to) ≡ false }
{
    let (old_parent, _) = end_of(site, cred, &from)?;
    let (new_parent, inos) = end_of(site, cred, &to)?;
    let op = Op::Rename {
        old: PathArg::Good(from),
        new: PathArg::Good(to),
    };
    both(site, cred, &op, &[old_parent, new_parent], &inos)
}

// Who calls, the operation, its path, for a rename the new one, and the errno of the answer.
type Row = (
    u32,
    &'static str,
    &'static [u8],
    &'static [u8],
    Option<Errno>,
);

fn rows() -> [Row; 17] {
    [
        (5, "chmod", b"/a", b"", None),
        (5, "chown", b"/a", b"", Some(Errno::Eperm)),
        (5, "rmdir", b"/f", b"", Some(Errno::Eacces)),
        (0, "rmdir", b"/b", b"", Some(Errno::Enotempty)),
        (0, "rename", b"/b", b"/a", None),
        (0, "rename", b"/b", b"/b/x/y", Some(Errno::Einval)),
        (0, "rename", b"/f", b"/a", Some(Errno::Eisdir)),
        (0, "rename", b"/c", b"/c", Some(Errno::Enoent)),
        (0, "rename", b"/b", b"/b", None),
        (0, "rename", b"/b/x", b"/f", Some(Errno::Enotdir)),
        (0, "rename", b"/a", b"/b", Some(Errno::Enotempty)),
        (5, "rename", b"/a", b"/c", Some(Errno::Eacces)),
        (5, "rename", b"/c", b"/a", Some(Errno::Enoent)),
        (5, "chmod", b"/b", b"", Some(Errno::Eperm)),
        (0, "chmod", b"/c", b"", Some(Errno::Enoent)),
        (0, "rmdir", b"/f", b"", Some(Errno::Enotdir)),
        (0, "rmdir", b"/a", b"", None),
    ]
}

fn judged(site: &Site, row: Row) -> Result<[Option<Errno>; 2], Fail> {
    let (uid, operation, path, new, _) = row;
    let cred = Cred { uid, gid: uid };
    let path = path_of(site.alloc, path)?;
    match operation {
        "chmod" => chmod(site, &cred, path),
        "chown" => chown(site, &cred, path),
        "rmdir" => rmdir(site, &cred, path),
        _ => rename(site, &cred, path, path_of(site.alloc, new)?),
    }
}

#[test]
fn operations_come_to_what_the_plain_tree_answers(rt: HostRuntime) -> Result<(), Fail> {
    let site = site_of(rt.alloc())?;
    for row in rows() {
        let (_, operation, path, _, wanted) = row;
        assert_eq!(rt;
            judged(&site, row)?,
            [wanted, wanted],
            "{operation} {path:?}"
        );
    }
    Ok(())
}
