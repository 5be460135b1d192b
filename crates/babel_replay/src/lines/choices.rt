//! The lines of the selected routes.

ghost use Rattle.std.specs.Prelude.{◌≡◌, ◌+◌, ◌≤◌, ◌++◌, Some, length};
ghost use Rattle.babel_value.specs.Lines.{line_room};
ghost use Rattle.babel_replay.specs.Texts.{choice_end, line, longest_head, select_head, select_text, selection_line, table_text};

use crate::lines::parts::push_peer;
use babel_state::Choice;
use babel_value::{Line, Prefix};

/// The line becomes that of a prefix whose selected route is another than the one that was last
/// printed. `None`: it has no route.
pub fn set_select(text: &mut Line, time: u64, prefix: &Prefix, choice: &Option<Choice>)
    ensures { text.new ≡ line (select_text time prefix.now choice.now) }
{
    set_select_head(text, time);
    push_selection(text, prefix, choice);
}

/// The line becomes the head with which each `select` line of a report begins.
pub fn set_select_head(line: &mut Line, time: u64)
    ensures text { line.new ≡ select_head time }
    ensures short { length line.new ≤ longest_head }
{
    line.truncate(0);
    line.push_u64(time);
    line.push_str(" select ");
}

/// Appends a prefix and its selected route to the head.
pub fn push_selection(line: &mut Line, prefix: &Prefix, choice: &Option<Choice>)
    requires room { length line.old ≤ longest_head }
    ensures { line.new ≡ line.old ++ selection_line prefix.now choice.now }
{
    line.push_prefix(prefix);
    push_choice(line, choice);
}

/// The selected route of a prefix at the end.
pub fn table_line(prefix: &Prefix, choice: &Option<Choice>) -> Line
    ensures { result ≡ line (table_text prefix.now choice.now) }
{
    let mut line = Line::new();
    line.push_str("table ");
    push_selection(&mut line, prefix, choice);
    line
}

/// Appends the route, or `none`, with which the line ends.
fn push_choice(line: &mut Line, choice: &Option<Choice>)
    requires room { length line.old + 100 ≤ line_room }
    ensures { line.new ≡ line.old ++ choice_end choice.now }
{
    match choice {
        Some(choice) => push_route(line, choice),
        // One text, since many lines may have it after a link is lost.
        None => line.push_str(" none\n"),
    }
}

fn push_route(line: &mut Line, choice: &Choice)
    requires room { length line.old + 100 ≤ line_room }
    ensures { line.new ≡ line.old ++ choice_end (Some choice.now) }
{
    line.push_str(" via ");
    push_peer(line, &choice.peer);
    line.push_field(" metric ", choice.metric.0);
    line.push_str(" router ");
    line.push_router_id(choice.router);
    line.push_field(" seqno ", choice.seqno.0);
    line.push_str("\n");
}
