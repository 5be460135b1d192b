//! What the help of the program prints after the commands.

/// After the help of the program.
pub(crate) const PROGRAM: &str = "Examples:
  babel show 2a0200080406000000010190
  babel show --stdin --header < datagrams.txt
  babel check router.toml
  babel replay router.toml router.log
  babel explain router.toml router.log 10.0.0.0/8
  babel show --help      units, and what each code means
  babel check --help     the keys of a configuration, and of a snapshot
  babel check --details router.toml
                         what is wrong with it, in words, as to a terminal
  babel replay --help    the lines of a log, and of its report

Exit status:
  0  the command did what was asked
  1  it refused: the code is on standard output or standard error
  2  the command line is not one of the commands
  3  the script ./babel could not build the program";
