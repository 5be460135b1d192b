//! What the help of each command prints after the arguments.

/// After the help of `speak`.
pub(crate) const SPEAK: &str =
    "A speaker has one UDP socket for each interface, bound to its IPv4 address and
the port. In a turn it waits at most 10 ms on each socket for a datagram, takes
its timers, and sends at most 64 datagrams. A datagram for all neighbours is
sent to each of the interface's peers. Datagrams from another port are dropped.

At the end it prints, on one line
  turns <n> received <n> sent <n> refused <n> faults <n>

With --routes, each change of a selected route is a line
  <time> select <prefix> via <iface> <address> metric <n> router <id> seqno <n>
  <time> select <prefix> none
where <time> is in centiseconds since the start. At the end there is a line
`table`, in place of <time> and `select`, for each prefix to which the speaker
has a route.

Example, 30 seconds with one interface:
  babel speak router.toml --turns 3000 --routes

Restarts: with --keep FILE the speaker is restored from FILE, and its snapshot,
the own seqno and the source table, is kept there before anything is sent that
depends on it. So it may be killed at any moment, and be started again at once:
  babel speak router.toml --turns 3000 --keep router.kept --new
  babel speak router.toml --turns 3000 --keep router.kept
The first time, --new begins without FILE. FILE.lock keeps other processes from
FILE. If the snapshot can't be kept in the first turn, nothing was sent (K9); if
that happens later, nothing is sent until it can. Then the line after the counts
is `failed keeps <n> unsent datagrams <n>`.
If FILE is lost, wait until the routers around have no route through this one,
at least 3 minutes, and start with --new.

--save writes a snapshot after the last turn alone, and --restore reads one
before the first. It is safe to restore if its speaker sent nothing after the
save: so once, and only if the run that saved it ended by itself.

Exit status:
  0  all turns were made; the counts have what failed
  1  refused: the code is on standard error
  2  the command line is not one of the commands

Codes, in the order of test: those of a file, C1 to C6 (babel check --help),
then
  W1        an interface has IPv6 transport
  K10       another process keeps its snapshot in the FILE of --keep
  K8        the snapshot can't be read, or has more than 15384 octets; of
            --restore tested first if it can't be opened
  K9        FILE is there, with --new; or FILE or FILE.lock of --keep can't be
            written, at the latest in the first turn
  K1 to K7  the snapshot is refused (babel check --help)
  C7        out of memory
  W2        a socket can't be made
At the end, after the counts:
  K9        the snapshot of --save can't be written; FILE is as it was
  L7        writing failed          L8  out of memory";

/// After the help of `run`.
pub(crate) const RUN: &str =
    "A speaker has two UDP sockets for each device, one for the device's link-local
IPv6 address and one for the group ff02::1:6. Start it by ./babel run, which
joins the group on each device, finds their IPv4 addresses, and ends the speaker
in order at SIGTERM, SIGINT and SIGHUP. The speaker ends when its standard input
does.

It announces the prefixes of --announce, and passes on what its neighbours
announce. It gives the kernel no routes by itself: --ip prints them for ip.

With --keep FILE the speaker is restored from FILE, and its snapshot is kept
there before anything is sent that depends on it. So it may be killed at any
moment, and be started again at once. The first time, --new begins without FILE.
FILE.lock keeps other processes from FILE. If the snapshot can't be kept later,
nothing is sent until it can. Without --keep a restart is that of a new router:
wait until no router around has a route through this one, at least 3 minutes.

With --routes, each change of a selected route is a line
  <time> select <prefix> via <device> <address> metric <n> router <id> seqno <n>
  <time> select <prefix> none
where <time> is in centiseconds since the start. At the end there is a line
`table`, in place of <time> and `select`, for each prefix to which the speaker
has a route.

With --ip, each change is a line for ip -force -batch -, which needs the right
to change routes. The first two lines flush the routes of a run that was killed,
and at the end each own route is deleted. Routes have the kernel's metric 1024.
The lines of --routes and the counts are on standard error then. Ctrl-C in a
terminal ends ip too, unless it ignores that, as in the examples.

With --config FILE there are settings by device, in TOML, all of which may be
left out:
  router-id = \"0000000000000001\"    prefixes = [\"10.1.0.0/16\"]
  [device.eth0]
  cost = 96    hello = 400    ipv4 = \"192.168.0.1/24\"

With --control PLACE the speaker answers on a Unix socket at a path, or on a TCP
port of ::1 if PLACE is a number, as babeld does (docs/CONTROL.md). `babel ask`
asks it.

A device that goes down and comes back, or is created again, is opened again. If
it gets another address, the speaker starts again from its snapshot. So it does
if a device that had no address at the start gets one. Each change is a line on
standard error.

At the end it prints, on one line
  turns <n> received <n> sent <n> refused <n> faults <n>
and, if there were any, `failed keeps <n> unsent datagrams <n>`.

Examples:
  ./babel run eth0 wlan0 --announce 10.1.0.0/16 --routes
  ./babel run eth0 --keep router.kept --new
  ./babel run eth0 --ip | sudo sh -c 'trap \"\" INT HUP; exec ip -force -batch -'

Exit status:
  0  stopped in order
  1  refused: the code is on standard error
  2  the command line is not one of the commands

Codes, in the order of test: F1 to F5 of the file of --config, F3 for an argument
that can't be read, then
  W6  the system's lists of devices can't be read
  W5  a device on which nobody joined the group ff02::1:6
  W3  no device has a link-local IPv6 address (without --router-id: the first)
  W4  such an address is still tentative after five seconds
  C1 to C7  as in babel check --help
  K10  another process keeps its snapshot in FILE
  K8  FILE can't be read, or has more than 15384 octets
  K9  FILE is there, with --new; or FILE or FILE.lock can't be written
  K1 to K7  as in babel check --help
  W2  a socket can't be made
  W7  the control socket can't be made
  L7  writing failed                L8  out of memory";

/// After the help of `ask`.
pub(crate) const ASK: &str =
    "The speaker has to run with --control PLACE, the path or the port that is asked
here. The questions are
  neighbours    each neighbour, its Hellos as 16 bits with the newest first, the
                costs of receiving, sending and the link, and when its next
                Hello is missed
  routes        each route, its metric, the one that was advertised, and when it
                is too old
  why PREFIX    a sentence for each route of the prefix: whether it is used, or
                why not, and which newer seqno is requested; or why its Updates
                were ignored
  log           what becomes of each message, as `babel replay` prints it, until
                the speaker ends
  counts        what was counted since the speaker started

Examples:
  babel ask --control babel.sock neighbours
  babel ask --control babel.sock why 10.1.0.0/16
  babel ask --control babel.sock routes --json | jq -r .prefix
  babel ask --control 6700 log

At a terminal tables have colours, unless NO_COLOR is set.

Exit status:
  0  answered
  1  refused: the code is on standard error
  2  the command line is not one of the commands

Codes:
  F3  the prefix can't be read      L7  writing failed
  W7  no speaker answers at PLACE   L8  out of memory";
