//! Bundles by name, each of which is valid.

/// A read of what the transaction then writes.
pub const OWN_READ_BEFORE_WRITE: &str =
    "sgt 1\n{\"decisions\":[{\"commit\":1,\"rank\":0}],\"sites\":1}\nsite 0\nitem x=5\nr1[x]=5\nw1[x]=6\nc1\nfinal x=6\nend\n";

/// The refused commit lies on the only cycle there is.
pub const ONLY_CYCLE: &str =
    "sgt 1\n{\"decisions\":[{\"commit\":1,\"rank\":0},{\"refuse\":2,\"walk\":[{\"item\":\"y\",\"kind\":\"rw\",\"site\":0,\"to\":1},{\"item\":\"x\",\"kind\":\"rw\",\"site\":0,\"to\":2}]}],\"sites\":1}\nsite 0\nitem x=5\nitem y=2\nr1[x]=5\nr2[y]=2\nw1[y]=7\nc1\np2[x]=8\nn2\nfinal x=5\nfinal y=7\nend\n";

/// A reader between the two blocks of a commit.
pub const READER_TORN: &str =
    "sgt 1\n{\"decisions\":[{\"commit\":1,\"rank\":0},{\"refuse\":2,\"walk\":[{\"item\":\"y\",\"kind\":\"rw\",\"site\":1,\"to\":1},{\"item\":\"x\",\"kind\":\"wr\",\"site\":0,\"to\":2}]}],\"sites\":2}\nsite 0\nitem x=5\nw1[x]=6\nc1\nr2[x]=6\nn2\nfinal x=6\nend\nsite 1\nitem y=2\nr2[y]=2\nw1[y]=3\nc1\nn2\nfinal y=3\nend\n";

/// A transaction that commits later runs first.
pub const RANK_MOVES: &str =
    "sgt 1\n{\"decisions\":[{\"commit\":2,\"rank\":1},{\"commit\":1,\"rank\":0}],\"sites\":1}\nsite 0\nitem x=5\nitem y=2\nr1[x]=5\nw2[x]=6\nc2\nw1[y]=3\nc1\nfinal x=6\nfinal y=3\nend\n";

/// Two increments that commute.
pub const INCREMENTS: &str =
    "sgt 2\n{\"decisions\":[{\"commit\":2,\"rank\":0},{\"commit\":1,\"rank\":1}],\"sites\":1}\nsite 0\nitem x=5\nd2[x]=4\nc2\nd1[x]=3\nc1\nfinal x=12\nend\n";
