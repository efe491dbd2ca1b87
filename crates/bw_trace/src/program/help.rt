//! The help of the program and of its commands, after their options.

/// The program's version.
pub(crate) const VERSION: &str = "0.4.0";

pub(crate) const OF_ALL: &str = r"Example:
  printf '0,put,5,50\n0,get,5,\n' | bwtree run --replies

Status: 0 done; 1 a row or a file can't be read, or a read or a write failed; 2 bad words or values;
3 a limit was met, memory was short, or a worker gave up; 4 a history isn't legal.
No words at all mean run. 'bwtree run --help' lists the rows of a trace.";

pub(crate) const OF_RUN: &str =
    "Rows: WORKER,OP,KEY,VALUE with no header and no blanks; workers from 0, numbers below 2^64. A trace
has at most 1000000 rows.
  0,put,5,50  gives key 5 the value 50, unless it has a value, which then stays
  0,set,5,50  gives key 5 the value 50, whatever it has
  0,get,5,    looks key 5 up
  0,del,5,    takes key 5 out
  0,clr,5,9   takes the keys from 5 on and below 9 out
  0,clr,5,    takes the keys from 5 on out

If row N can't be read, 'bwtree: row N: PART' names its first bad part:
  fields  there aren't four: a missing last comma, ';' for ',', a history
  worker  not a number below --workers: a header, a blank, one worker too many
  op      not put, set, get, del or clr: capitals, a blank
  key     not a number: a sign, a blank, 2^64 or more
  value   not a number, or a value after get or del

If an option's number is out of its range, 'bwtree: bad NAME' names the option. On a terminal, a line
below each fault says what was found, and what may be there.

Replies: inserted, present V (put left V there), replaced V, removed V, nokey, found V, none,
cleared N. 'inserted (table full)' calls for more --pages. On a terminal, standard error says every
second how many rows are done, and at the end how many have such a fault.

With --trees the ranges begin at 0 and at quantiles of the rows' keys, each leaf ends where its tree's
range does, and the audit says yes if each tree's history is legal. It can't be combined with
--readers or --history.

Example:
  bwtree make --rows 20 | bwtree run --replies";

pub(crate) const OF_DRAW: &str =
    "Rows and options are those of run, and the drawing goes to standard output. If the table has at most
40 pages, each is drawn, with the newest records of its chain and the first entries of its base. Of a
larger table, ten leaves around what is half done are drawn, and the pages above them. A page with
more entries than the fanout says in red how many are over.

With --steps it reads a script of steps: one line for each step, single blanks between words:
  table 4 4 64 100 0                      a new table: fanout, chain, pages, tries, first version
  insert 0 0 1 10                         on page 0, seen at version 0, key 1 gets the value 10
  insert 0 1 5 50
  consolidate 0 2 leaf 0 top - 1:10 5:50  the page's records go into a new base
  split 0 3 5 leaf 5 top - 5:50           the keys from 5 on go to a new page
  grow 1 1 inner 0 top - 0:0 5:1          a new root over both pages
A step that is refused changes nothing, and the next one is tried. If line N can't be read,
'bwtree: line N: the line can't be read' says so. examples/scripts.md lists all kinds of lines.

Example:
  bwtree make --rows 20 | bwtree draw --fanout 4 --chain 4 > tree.svg";

pub(crate) const OF_STEPS: &str =
    "Lines are those of draw --steps, and questions. Each is answered at once: a step by its receipt, or by
the number and the name of the refusal, and a question by what the table shows:
  table 4 4 64 100 0   ok
  insert 0 0 1 10      inserted 1 1 10
  insert 0 0 5 50      refused 2 Stale
  look 0 1             found 10 at 1
  pairs                1:10
Empty lines, and those that begin with '#', ask for nothing. If line N can't be read,
'bwtree: line N: the line can't be read' says so, and nothing more is answered.
examples/scripts.md lists all lines and answers, docs/STEPS.md all refusals.";

pub(crate) const OF_FILM: &str =
    "Rows, scripts of steps and options are those of draw. It prints a page of HTML that needs no other
file: the drawing after each step, the row or line that asked for the step, and the comment that
follows that line in a script. A comment that begins with 'Worker 2:' says what that worker does from
there on. One that begins with 'Film:', the last of its moment, gives the page its title, and the page
opens there; without one, it opens at the first split or mark. With --from above 0, it opens at that
moment. Moment 0 is the new table, and each step makes the next moment, with its changes marked. A
page has at most 200 moments, from --from on; on a terminal, standard error says if there are more.
The rows of a trace are done one after the other, each to its end, and --readers changes nothing. With
--workers 2 or more, the page says at each moment which row each worker did last, with the answer,
which row it does now, and which is next.

Example:
  bwtree make --rows 20 | bwtree film --fanout 4 --chain 4 > film.html";

pub(crate) const OF_STATS: &str =
    "Rows and options are those of run, and scripts of steps those of draw. It prints these lines:
  levels N                          how many levels the tree has, 1 for leaves alone
  level L pages N                   how many pages level L has, from the root's level down
  pairs N                           how many pairs the map has
  unposted N marked N merged N      pages that wait for their term, for a merge, for their term's end
  slots N free N                    of the mapping table
  leaf entries least N mean N greatest N   pairs of a leaf
  inner entries least N mean N greatest N  routes of an inner page, or 'none'
  chain records least N mean N greatest N  records over a page's base, along the deepest path
  bytes slots N pages N records N   what the slots, the bases' entries and the links of chains take

Example:
  bwtree make --rows 1000 | bwtree stats";

pub(crate) const OF_MAKE: &str =
    "Run it with as many workers, or more. A row takes two words of the generator PCG32. The first chooses:
modulo 4, put for 0 and 1, del for 2, get for 3; with --mix, modulo 8, put for 0 to 2, set for 3 and
4, del for 5, get for 6, and for 7 a clr of eight keys. The second, modulo --span, is the key.

With --skew key K comes up about as often as 1/(K+1): key 0 has the weight 2^54, and key K+1 that of
key K times (200K+201)/(200K+399), rounded down. Let S be the sum of all, over 2^32 and rounded down:
the key is the first whose weight and those before it sum up to more than the second word times S.

Example:
  bwtree make --rows 20 --workers 4 | bwtree run --workers 4";

pub(crate) const OF_CHECK: &str = "Rows: WORKER,OP,NUMBER,KEY,VALUE, and a sixth field after mod.
  0,ins,1,5,50     change 1 gave key 5 the value 50
  0,mod,2,5,51,50  change 2 gave it 51, and it had 50
  1,hit,2,5,51     a look after change 2 found 51
  0,del,3,5,51     change 3 took it out, and it had 51
  1,none,3,5,      a look after change 3 found nothing
  0,ins,4,6,60     change 4 gave key 6 the value 60
  end,pair,0,6,60  the map has this pair at the end; such rows come last, and their keys rise

If row N can't be read, 'bwtree: row N: PART' names its first bad part:
  fields  there aren't five, or with mod six: a missing last comma, ';' for ',', a trace
  worker  not a number below 64, and not end: a header, a blank, a worker's row after an end row
  op      not ins, mod, del, hit or none, or after end not pair: capitals, a blank
  key     NUMBER or KEY isn't a number; after end NUMBER isn't 0, or KEY isn't above the one before
  value   not a number, or a value after none
  old     not a number in mod's sixth field

'audit no W R' names the first false row: row R of worker W, both counted from 0. If all these rows
are true, W is one more than the greatest worker, R is 0, and the pairs are false.

Example:
  bwtree make --rows 20 | bwtree run --history | bwtree check";
