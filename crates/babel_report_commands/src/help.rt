//! What the help of each command prints after the arguments.

/// The usage of `show`: octets are an argument, or lines of the standard input.
pub(crate) const SHOW_USAGE: &str = "babel show [--source ADDR] [--short] [--json] [--details] HEX
       babel show [OPTIONS] --stdin [--header] [--keep-going]";

/// After the help of `show`.
pub(crate) const SHOW: &str =
    "A line for each TLV: how many octets of the datagram come before it, then its
message, `state` (a Router-Id or Next Hop, for the Updates after it), or
`ignored` and a code. A datagram that cannot be read as a whole is `refused` and
a code.

With --stdin, an empty line separates two datagrams. Blank lines and lines that
begin with # are skipped. Output is flushed whenever no further line is waiting.
It ends at the first line that cannot be read. With --keep-going it goes on, and
the status is 1 at the end.

On a terminal, or with --details, a sentence for each code is on standard error,
once: what it means, where it was first, and what to do. Standard output is the
same.

With --json each line is an object, and so is a fault on standard error, with
its sentence. With --stdin each datagram has an object before its TLVs.
docs/JSON.md has the keys.

Examples:
  babel show 2a0200080406000000010190
    4 hello multicast seqno 1 interval 400
  babel show --source 192.168.0.1 2a02000d080b0100180206400005006002
    4 ignored I7
  tail -f datagrams.txt | babel show --stdin --header
  babel show --json 2a0200080406000000010190 | jq .interval

Units:
  Intervals are in centiseconds: interval 400 is 4 seconds. Metrics and rxcosts
  are costs without a unit, from 0 to 65535, and 65535 is infinity. Offsets and
  lengths are in octets.

Exit status:
  0  shown; with --stdin also if single datagrams are refused
  1  refused, or a fault of the arguments, of a line, or of reading and writing
  2  the command line is not one of the commands

Codes of a refused datagram, on standard output:
  P1  fewer than 4 octets           P4  the body is longer than the datagram
  P2  the first octet is not 42     P5  a TLV runs past the body: its offset
  P3  the version is not 2              follows
                                    P6  out of memory

Codes of an ignored TLV, the first that applies:
  I1  padding                       I8   no router-id, or a reserved one
  I2  a type above 10               I9   no next hop of the prefix's family
  I3  its fields are not whole      I10  interval 0
  I4  a sub-TLV runs past the TLV   I11  rxcost 0
  I5  a mandatory sub-TLV of an     I12  a wildcard with a prefix length,
      unknown type, which follows        omitted octets or a finite metric, or
                                         in a Seqno Request
  I6  an address encoding that      I13  hop count 0
      the TLV does not take
  I7  no default prefix

Codes of a fault, on standard error, with --stdin after the line's number:
  L3  not an address                L6  reading failed
  L4  not octets in hexadecimal     L7  writing failed
  L5  a line of more than 131200    L8  out of memory
      octets";

/// After the help of `check`.
pub(crate) const CHECK: &str =
    "Prints ok if a speaker can be made of the configuration. Else the first code
that applies is on standard error. On a terminal, or with --details, a sentence
follows it. It says where the fault is, and what is allowed. For a configuration
that is ok there are warnings of what cannot work. With --json what is printed
is an object, and each fault and warning too, with file, line and column.

With --restore, a speaker is restored from the snapshot too, and ok is followed
by what it restored:
  ok <n> sources seqno <n> raises <n>
babel speak --save writes snapshots, and babel speak --help explains when it is
safe to restore one.

Keys of the file, which is TOML of at most 1048576 octets:
  router-id   16 hexadecimal digits, not all 0 and not all f; required
  seqno       the speaker's first sequence number, 0 to 65535 [default: 0]
  collect     true if entries of the source table are collected [default: false]
  prefixes    a list of prefixes that the speaker announces, at most 64
              [default: none]
  interface   a list of tables, 1 to 8, numbered from 0

Keys of an [[interface]]:
  transport   \"ipv4\" or \"ipv6\": the addresses that datagrams are sent from;
              required
  ipv4        the interface's IPv4 address and its network's length, as
              192.168.0.2/24
  ipv6        the interface's IPv6 address, in fe80::/10
  peers       a list of addresses that are sent what is for all neighbours, at
              most 16 [default: none]
  cost        the nominal cost of receiving, 1 to 65534, without a unit
              [default: 96]
  hello       the interval between two Hellos in centiseconds, 1 to 4000
              [default: 400]

Bits of a prefix past its length are cleared. An interface needs the address of
its transport.

Example, a file router.toml:
  router-id = \"0000000000000002\"
  prefixes = [\"10.2.0.0/16\"]

  [[interface]]
  transport = \"ipv4\"
  ipv4 = \"192.168.0.2/24\"
  hello = 400

  babel check router.toml
    ok
  babel check router.toml --restore router.saved
    ok 1 sources seqno 0 raises 0

Exit status:
  0  ok
  1  refused: the code is on standard error
  2  the command line is not one of the commands

Codes of a file:
  F1  not TOML                      F4  out of memory
  F2  a key is unknown, missing     F5  the file can't be read, or is longer
      or of the wrong kind, or a        than 1048576 octets
      number is out of range
  F3  the text of an address, a
      prefix or a router-id can't
      be read

Codes of a configuration, in the order of test:
  C1  the router-id is reserved     C6  an interface without an address of its
  C2  no interface, or more than 8      transport, an IPv6 address outside
  C3  a cost outside 1 to 65534         fe80::/10, a length above 32, more than
  C4  a Hello interval outside          16 peers, or a peer of another family
      1 to 4000                         than the transport
  C5  more than 64 prefixes, or
      one twice

Codes of a snapshot, in the order of test after C1 to C6 and before C7. Records
count from 0:
  K8  the file can't be read, or has more than 15384 octets
  K1  fewer than 24 octets          K6 i  record i is no source, or its metric is
  K2  it is no snapshot                   infinite
  K3  another router-id             K7 i  record i is not greater than the one
  K4  more than 512 sources               before it
  K5  a length other than that      C7    out of memory
      of its records
A snapshot that can't be opened is K8 before the configuration is read.

Codes of writing:
  L7  writing failed                L8  out of memory";

/// After the help of `replay`.
pub(crate) const REPLAY: &str = "\
Lines of the log, whose fields one blank separates:
  <time> in <iface> <source> <hex>   a datagram came; - for no octets
  <time> tick                        time passed: timers that are due fire
  <time> cost <iface> <n>            an interface got another nominal cost
Empty lines and lines that begin with # are skipped. A line has at most 131200
octets.

Lines of the report, for each line of the log:
  <time> <offset> <message> <code>   a TLV, how many octets come before it, and
                                     what became of it
  <time> <offset> state              a Router-Id or Next Hop, for the Updates
                                     after it
  <time> <offset> ignored <code>     a TLV that can't be used
  <time> refused <code>              a datagram or a cost that was refused
  <time> select <prefix> <route>     the selected route of the prefix changed
  <time> out <iface> <address> <n>   a datagram of n messages is sent; `all`
                                     goes to each peer
At the end there is a line `table <prefix> <route>` for each prefix of which an
Update came. A route is `via <iface> <address> metric <n> router <id> seqno
<n>`, or `none`.

On a terminal, or with --details, a sentence for each code is on standard error,
once: the log and the line that has it first, what it means, and what to do.
Standard output is the same.

For long logs: --prefix and --only select lines of the report. A WORD is select,
out, table, refused, ignored or state, the name of a message as update, or a
code. Several are separated by commas. With both options a line must fit both.
--until ends the log early, so the table is that of the moment. With --json each
line is an object, and so is a fault on standard error (docs/JSON.md).

Units:
  Times and intervals are in centiseconds: 100 is a second. Metrics and costs
  have no unit, and 65535 is infinity. Interfaces are numbered from 0, as the
  configuration lists them.

Example, a file router.log (router.toml is that of babel check --help):
  0 tick
  10 in 0 192.168.0.1 2a0200080406000000010190

  babel replay router.toml router.log
    0 out 0 all 2
    10 4 hello multicast seqno 1 interval 400 V1
  babel replay router.toml router.log --only out --until 9
    0 out 0 all 2

Exit status:
  0  the report is whole, also if it has refused datagrams
  1  refused: the code is on standard error, after the number of the line if it
     is one of the log
  2  the command line is not one of the commands

Codes of a message:
  V1  it was taken                  V6  an IHU for another address
  V2  an unfeasible update: seqno   V7  a retraction without a route
      and metric of its source      V8  a request that is pending already
  V3  an update with the own        V9  a request that is not forwarded
      router-id
  V4  from a node that is no neighbour
  V5  no room for a new neighbour or route

Codes of an ignored TLV, the first that applies:
  I1  padding                       I8   no router-id, or a reserved one
  I2  a type above 10               I9   no next hop of the prefix's family
  I3  its fields are not whole      I10  interval 0
  I4  a sub-TLV runs past the TLV   I11  rxcost 0
  I5  a mandatory sub-TLV of an     I12  a wildcard with a prefix length,
      unknown type, which follows        omitted octets or a finite metric, or
                                         in a Seqno Request
  I6  an address encoding that      I13  hop count 0
      the TLV does not take
  I7  no default prefix

Codes of a refused line of the report:
  S1  no such interface             P1 to P6  as in babel show --help
  S2  a source address that is      E1  no such interface
      not on the interface's link   E2  a cost outside 1 to 65534
  S3  an own address

Codes of a fault, on standard error. F1 to F5 and C1 to C7: see babel check
--help. F3 is also a --prefix that is none.
  L1  a line of another form, or    L5  a line of more than 131200 octets
      not UTF-8                     L6  reading failed
  L2  not a number, or too large    L7  writing failed
  L3  not an address                L8  out of memory
  L4  not octets in hexadecimal";

/// After the help of `explain`.
pub(crate) const EXPLAIN: &str = "\
The log is that of babel replay --help. For each route to the prefix there is a
line, in the order of the neighbours:
  <prefix> via <iface> <address> router <id> seqno <n> advertised <n> cost <n>
  metric <n> source <seqno> <metric> <verdict>

The neighbour advertised the metric after `advertised`. The cost of the link to
it is added, which gives the metric. A route is feasible if its seqno and
advertised metric are better than those of its source, which are those of the
best Update that was sent; `source none` if none was sent.

The verdict is the first of these that applies:
  local         the speaker announces the prefix itself
  infinite      the neighbour retracted the route, or it is too old
  unfeasible    the route might lead back here
  unreachable   the metric is infinite, since the link is down
  selected      the route is used
  candidate     the route could be used, and another one is better

With --until the log ends before the first line that is later. With --json each
line is an object, and so is a fault on standard error (docs/JSON.md).

Units:
  Metrics and costs have no unit, and 65535 is infinity.

Example:
  babel explain router.toml router.log 10.0.0.0/8

Exit status:
  0  explained, also if there is no route
  1  refused: the code is on standard error
  2  the command line is not one of the commands

Codes of a fault, on standard error. F1 to F5 and C1 to C7: see babel check
--help; L1 to L8: see babel replay --help. After a fault of the log, the routes
after the lines before it are shown.
  F3  the argument is not a prefix";

/// After the help of `net`.
pub(crate) const NET: &str =
    "Runs the events of the scenario in order. After each event there is a line for
each next hop that changed, and at the end the numbers of events and of recorded
datagrams:
  <event> hop <node> <prefix> -> <node> router <router-id>
  <event> hop <node> <prefix> -> none
  <event> hop <node> <prefix> -> <address> router <router-id> next-hop <address>
  end <n> events <n> datagrams
The third form is that of a route over a router that is no node, by its address.
Its packets go to the next hop; node <node> follows if that is a node's address.
With --events a line for each event comes before these:
  <event> did <word> <node>
  <event> did emit <node> datagram <k> octets <n> iface <i> to <address>|all
  <event> did emit <node> nothing
  <event> did deliver <node> datagram <k> octets <n> from <node>
If a node hears a router that is no node, iface and to are left out.
An event that is refused is the last line: <event> refused <code>. Nodes, events
and datagrams count from 0. Moments are in centiseconds. With --json each line
is an object, and so is a fault on standard error (docs/JSON.md).

Keys of the file, which is TOML of at most 1048576 octets:
  events      a list of texts [default: none]
  node        a list of tables, each a configuration (babel check --help), at
              most 64

Events:
  tick N T          the timers of node N run at moment T
  emit N T          node N sends its next datagram, which is recorded, or
                    nothing
  deliver K N I T   node N receives the recorded datagram K over its interface I
  cost N I C        the nominal cost of interface I of node N becomes C
  raise N           the seqno of node N grows by 1
  request N T       node N requests greater seqnos for routes that it would
                    select if they were feasible
  lose N I T        interface I of node N is down: its links cost infinity until
                    its neighbours report another cost
  group N           what node N has pending is grouped by where it goes, so that
                    the next datagrams are as few as can be
  announce N P      node N announces the prefix P, which its configuration lists
  withdraw N P      node N announces the prefix P no longer
  restart N T       node N is saved, and restored at the moment T
  hear N I A T HEX  node N receives a datagram of a router that is no node, over
                    its interface I from the address A: HEX are its octets, at
                    most 65535, or - for none
A datagram may be delivered to any node, late, more than once, or never. One that
the node's speaker refuses (S2 and S3, P1 to P5) changes nothing.

Exit status:
  0  all events were run
  1  refused: the code is the last line, or on standard error
  2  the command line is not one of the commands

Codes of a refused event:
  N1  no such node                  N4  a cost outside 1 to 65534
  N2  no such datagram              N5  the node's configuration does not list
  N3  no such interface                 the prefix
  N8  hear: the address is a        N6  out of memory
      node's; tested before N1      N7  the prefix is not announced

Codes of a network:
  M1  two interfaces with one       M5  more than 64 nodes
      address                       M6  out of memory
  M2  two nodes with one router-id  M7  a node's configuration: its number and
      C1 to C7 follow
  M4  a node collects sources

Codes of a file: F1 to F5 as in babel check --help, and
  F6  the text of an event can't be read: its number follows

Codes of writing:
  L7  writing failed                L8  out of memory";
