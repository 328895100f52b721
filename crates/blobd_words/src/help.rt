//! What `blobd --help` and `blobd --version` print.

/// The program's name, and its version, which is that of the file VERSION.
pub const VERSION: &str = "blobd 0.3.0";

/// The commands, each with its words and an example; and the variables of the environment.
pub const HELP: &str = "\
blobd: the blob upload part of an image registry, and a client that pushes files to it

  blobd serve ADDR [COUNT]   listens at ADDR. Each worker takes COUNT connections (1 to
                             1,000,000), or all that come. Blobs are in memory; with
                             BLOBD_DATA they are in files, and in memory is what is under way.
                               blobd serve 127.0.0.1:5000

  blobd push ADDR NAME FILE [CHUNK]
                             pushes FILE into the repository NAME of the server at ADDR,
                             in chunks of at most CHUNK bytes (1 to 2147483648, as 64K,
                             16M or 1G too; 16M if none is given), unless NAME has it already.
                             It speaks plain HTTP: ADDR is on this machine, a server or the
                             adapter to one elsewhere (`make adapter`, deploy/adapter.cfg).
                               blobd push 127.0.0.1:5000 lib/a file.tar 16M

  blobd compact [--dry-run] DIR
                             gives room back in the folder DIR of a server that doesn't run: what
                             no blob and no open upload needs goes. With --dry-run it says how much
                             that would be, and changes nothing.
                               blobd compact /var/lib/blobd

  blobd compact [--dry-run] [--grace SECONDS] DIR KEEP
                             so do the blobs that nothing refers to: all of a repository but those
                             of which the file KEEP (- is standard input) has a line NAME DIGEST,
                             and those that it got within the last day, or SECONDS.
                               blobd compact --dry-run /var/lib/blobd keep.txt

  blobd once                 serves one connection, standard input to standard output.
                               blobd once < requests > replies

  blobd status [--json] DIR  says how many blobs and open uploads the data directory DIR holds,
                             and how many bytes, by the records of its journal: also while a
                             server has it. It writes nothing.
                               blobd status /var/lib/blobd

  blobd --help               prints this.
  blobd --version            prints the version.

ADDR is an IP address and a port, as 127.0.0.1:5000 or [::1]:5000.

In the environment:
  BLOBD_DATA=DIR             serve keeps each change in the folder DIR before it answers, and
                             has all of it again when it starts; not set: it writes nothing.
  BLOBD_STRICT=1             serve doesn't start with a damaged DIR; 0, or not set: it names what
                             is lost, and serves the rest.
  BLOBD_MEMORY=SIZE          serve holds at most SIZE bytes in memory, as 512M or 8G; not set:
                             three quarters of what it may use. What has no room is refused
                             as out of memory.
  BLOBD_WORKERS=N            serve has N workers (1 to 256), which serve a connection each;
                             not set: 2.
  BLOBD_LOG=1                serve writes a line for each request to standard error, and at most
                             once a minute what it holds; 0, or not set: it doesn't.

Exit status: 0 done, 1 refused, 2 no such command or a bad variable, 3 a fault. Standard error
says more.";
