//! What the help of each command prints after the arguments.

/// After the help of `topology`.
pub(crate) const TOPOLOGY: &str = "\
Writes a file of a topology to standard output. Node K is named nK, and announces
a prefix of 256 addresses in 10.0.0.0/8. docs/TOPOLOGIES.md has the keys of the
file, and the steps of a plan that can be added.
  ring      each node is linked to the next, and the last one to the first
  line      each node is linked to the next
  grid      the nodes are in rows, as long as there are rows or one longer
  star      the first node is linked to each other
  random    each node is linked to one or two nodes before it, by the seed

Example:
  babel topology grid --nodes 64 > grid.toml

Exit status:
  0  written
  1  refused: the code is on standard error
  2  the command line is not one of the commands

Codes:
  L7  writing failed                L8  out of memory";

/// After the help of `simulate`.
pub(crate) const SIMULATE: &str =
    "Runs the network of the file TOPOLOGY (docs/TOPOLOGIES.md), and writes
  the next hops that change, with the steps of the plan between them;
  after each change of the plan: how long it took until no next hop changed any
    more, how many datagrams and octets were sent until then, and at the end of
    that time how many ways are shortest ones, as a plain search finds them;
  the ways at the end, what was sent and received at each node, and for each
    expectation whether it was met.

Each node begins within its first Hello interval, and its speaker is the one that
`run` runs. It is ticked when it is due, and what it sends goes over each link
that is there. The same seed gives the same run. An expectation is tested before
the steps of its moment. A node that begins again with nothing has another
router-id and other addresses from then on.

Each datagram is recorded, since the theorem on loops is about all that were ever
sent: with its octets it takes some 100 to 2000 octets of memory.

Examples:
  babel simulate examples/topologies/ring.toml
  babel simulate examples/topologies/grid.toml --seed 3 --prefix 10.1.0.0/16
  babel simulate examples/topologies/ring.toml --scenario ring-events.toml
  babel net ring-events.toml

Exit status:
  0  the network ran, and all that was expected was there
  1  something else was there, as the output shows, or the command was refused: the
     code is on standard error
  2  the command line is not one of the commands

Codes:
  T1 to T19    the file has no topology (docs/CODES.md)
  T20          the run would take more memory than --memory
  T21          the file of --scenario can't be written
  T22, T23     --at is no time; the file of --svg or --dot can't be written
  M5, M7       more than 64 speakers; a node's configuration: its number and
               C1 to C7 follow (babel net --help)
  F3           --prefix is no prefix
  L7, L8       writing failed; out of memory";
