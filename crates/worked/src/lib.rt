// No code: command lists that are run, event by event, and meet every premise of the theorems of the room lists: one while frames arrive and the host
// writes, also on bytes and by runs; one at an unruly start; one that is resumed; one that configures the addresses of its own later commands; and
// others that take every one of the 132 turns a command.

#![tactic(auto)]
