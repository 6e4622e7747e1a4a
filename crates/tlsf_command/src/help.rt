//! The texts of the help that follow the options, which `clap` writes. Lines have at most 80 characters; no contract says so.

/// The text of `tlsf --help` after its options.
pub const PROGRAM_HELP: &str = "\
'tlsf replay' reads a trace from standard input and writes to standard output
what each of its lines was answered, and a report on each heap. This is a trace
of one worker, whose heap has 64 words; it asks for 8 bytes and for 100 bytes
and frees the first block:

  tlsf 1 1 64 1
  a 0 1 8
  a 0 2 100
  f 0 1

In a file, as first.trace, it is run by 'tlsf replay < first.trace'.

'tlsf replay --held' writes how large the heaps must be for a trace's calls, and
with '--kinds' the kinds of blocks that these hold, as options of 'tlsf size'.
'tlsf replay --least' writes how small they may be for these calls alone.
'tlsf race' replays with the workers of each phase in threads of their own;
'tlsf race --queues' does so with one queue for the posts to each worker.
'tlsf map' draws the heaps that a trace leaves, as an SVG file, and
'tlsf map --text' in the characters of a terminal; '--at K' behind line K.
'tlsf plot' plots them over its lines, and says which line to look at.
'tlsf check' says where a trace that is refused is faulty, and what was expected
there.
'tlsf classes N' and 'tlsf size' read nothing and write one line.

The exit status is 0 where the run is done, 1 where a fault of the trace, of a
read or of a write ends it, 2 where the command line is refused, and 3 where
memory runs out. Faults go to standard error.";

/// The text of `tlsf replay --help` after its options.
pub const REPLAY_HELP: &str = "\
Standard input is a trace. Its first line is 'tlsf 1 N W C': N workers, 1 to 8,
each with a heap of W words, 4 to 1048576, and lanes between them for C posts
each, 1 to 1024; or 'tlsf 2 N W C', for heaps of level 5, whose classes are
finer, of 4 to 16777216 words. Each line after it is one of these:

  a w L len    worker w allocates len bytes and makes the label L
  f w L        worker w frees the block of L, or posts its name to its owner
  p w L at HEX worker w writes 1 to 64 bytes at byte 'at' of the block of L
  g w L at n   worker w reads n bytes, 1 to 64, at byte 'at' of the block of L
  r w L len    worker w resizes the block of L to len bytes, where it stands
  d w n        worker w takes at most n posts, 1 to 8192, and frees their blocks
  phase        each worker takes its posts, and labels may go to other workers

A label is a number from 0 to 65535, and is made once. Only its maker uses it
before the next 'phase'. Workers are counted from 0. Fields are parted by one
space, and each line ends with a line feed.

Standard output is one reply line for each call and each post taken, once all
have run, and then a report on each heap. At the end each worker takes its
posts. This is a trace, and this is what it comes to:

  tlsf 1 2 64 4
  a 0 1 8
  phase
  f 1 1

  0 a 1 at 0 serial 1
  0 d drained 0
  1 d drained 0
  1 f 1 posted
  0 take 1 at 0 serial 1 freed
  0 d drained 1
  1 d drained 0
  heap 0 live 0 0 0 free 1 64 largest 64 grant 488 fragmentation 0 waste 0 age 1
  heap 1 live 0 0 0 free 1 64 largest 64 grant 488 fragmentation 0 waste 0 age 1

A report line has of its heap

  live B W Y       live blocks, their words with headers, the bytes asked for
  free B W         free blocks, their words
  largest M        words of the largest free block
  grant G          the most bytes for which an 'a' line would find room
  fragmentation Q  thousandths of the free words that lie outside the largest
  waste Z          bytes of the live words, with headers, that nobody asked for
  age T            ticks since which the oldest free block is free

A call or a post may be refused, as '0 a 2 refused 1'. The last number says why:

   1 NoFit    no free block is in the search class of the words, or above it
   2 Worn     the tick of the heap is at its last value
   3 Foreign  the block is of another heap
   4 Stale    no such live block: a use after free, or a double free
   7 Range    the bytes would go past the end of the payload
   8 Full     the lane to the owner holds C posts
  10 NoRoom   the block and the free one right behind it are too short for len
  18 Unmade   the 'a' line of the label was refused

The exit status is 0 where the lines are written, 1 where a fault of the
trace, of a read or of a write ends the run, and 3 where memory runs out. A
fault is a line on standard error, as 'tlsf: line 2: bad number (13)'. Where the
trace is refused, 'tlsf check < TRACE' says more; a terminal gets a tip on it.

Options ask for other lines. --held, --least, and --kinds or --heaps exclude
each other.

With --held it is one line for each worker, as

  held 0 blocks 3 bytes 512 words 342 region 64 wanted 139

Worker 0 held at most 3 blocks of its heap at once, the one that it asked for
included, and asked for at most 512 bytes. A heap of 342 words never answers
NoFit (1) to such calls; 'none' says that no heap is so large. The heaps of the
trace have 64 words. The blocks that were held at once, and the one that was
asked for, wanted at most 139 words. A block that another worker frees is held
until its owner takes the post.

With --kinds it is one line for each worker, with options of 'tlsf size':

  --level 4 --blocks 100 --bytes 64 --blocks 4 --bytes 4096

At most 100 blocks of one size class were held at once, of at most 64 bytes, and
4 of another. Each class is a kind; where there would be more than 64 kinds, a
few classes make one. A worker that asked for no block gets the kind of the
least heap, 1 block of 1 byte. So

  tlsf replay --kinds < TRACE | xargs -L 1 tlsf size

writes for each worker the words of a heap for its blocks. Where no heap is
large enough, a line on standard error says how many are, and of how many words;
with '--split' at its end the command writes these heaps.

With --heaps N each line has at most N kinds, as

  --level 4 --blocks 60 --bytes 64 --blocks 4 --bytes 4096

Neighbouring kinds are merged: of blocks of up to 64 bytes at most 60 were held
at once, though in one class 40 were, and 30 in another. So pools of these kinds
are smaller than those of all kinds, and no way of merging neighbours has fewer
words. 'tlsf size --split' has the words of each pool.

With --least it is one line for each worker too, as

  least 0 words 150 wanted 139 law 342

In heaps of 150 words none of the requests of worker 0 is refused as NoFit (1)
or NoRoom (10), and in heaps of 149 one is; 'none' says that the largest heaps
refuse one. So much is enough if the calls come as they stand in the trace; for
any order the law asks for 342 words. It is found by some twenty replays: with
the words of the trace or those found for the worker before, then twice as many
until none is refused, and then always the middle. Fewer words may be enough
besides, as a larger heap may refuse what a smaller one serves.";

/// The text of `tlsf race --help` after its options.
pub const RACE_HELP: &str = "\
Standard input is a trace, as 'tlsf replay --help' tells. Each phase is run by
threads, one for each worker, which run its lines in their order. Once all have
ended, each worker makes a last drain, which takes all posts that wait.

Standard output is the reply lines of each phase, worker by worker, and then a
report on each heap. A trace without 'd' lines gives the same bytes on every
run. With them it depends on the schedule how many posts a drain takes. This is
a trace, and this is what it comes to:

  tlsf 1 2 64 4
  a 0 1 8
  phase
  f 1 1

  0 a 1 at 0 serial 1
  0 d drained 0
  1 d drained 0
  0 take 1 at 0 serial 1 freed
  0 d drained 1
  1 f 1 posted
  1 d drained 0
  heap 0 live 0 0 0 free 1 64 largest 64 grant 488 fragmentation 0 waste 0 age 1
  heap 1 live 0 0 0 free 1 64 largest 64 grant 488 fragmentation 0 waste 0 age 1

With --queues each worker has one queue for the posts of all others, in place
of a lane from each. It holds C posts, so a post is refused as full by what all
others have posted, and posts of several workers are taken in the order in
which they came, which is up to the schedule.

The exit status is 0 where the replies are written, 1 where a fault of the
trace, of a read or of a write ends the run, and 3 where memory runs out, or no
thread can be started. Faults are those of 'tlsf replay'.";

/// The text of `tlsf map --help` after its options.
pub const MAP_HELP: &str = "\
Standard input is a trace, as 'tlsf replay --help' tells. It is run to its end,
with the drains there, and no reply is written.

Standard output is an SVG file, for a browser: each heap as rows of words, read
as a text is. A block is a rectangle in each row that it touches, as wide as its
words there. A live block shows its header and what its payload leaves empty,
and where there is room its label and its bytes. The green of a free block is
the stronger, the longer it is free: the newest is the faintest, the oldest the
strongest. The largest ones are framed. Above each heap stand the numbers of its
report, and each block tells its own where the pointer rests on it. Neighbours
under 4 pixels wide are drawn as one, in a violet that is the stronger, the more
of their words are live, and the heap says how many there are.

  tlsf map < two_workers.trace > heaps.svg

With --text it is rows of 64 characters for a terminal of 80 columns. Each row
begins with the place of its first word, and each character shows the first of
so many words, 1 where a heap has at most 1024:

  [ and a label   a live block        (   a free block
  #   its header                      *   one of the largest free blocks
  =   its payload                     .   words freed lately
  -   words that it leaves empty      :   words at least as near in age to the
                                          oldest free block as to the newest

Where a character has more than 64 words it shows how many of them are live: '.'
none, then ':', '-', '=', '+', '*', '#' and '%', '@' all.

With '--at K' the heaps are drawn as they stand after line K of the trace, its
header being line 1, and before the drains at its end. Where it has less than K
lines they are drawn as it leaves them. With --worst K is a line that 'tlsf
plot' names. If the longest request of a worker ever finds no room, it is the
line with the most free words without that room. Otherwise it is the line with
the most live words; of several, the one with the most fragmentation.

With --html it is a page for a browser that shows the heaps after each line, or
at 200 such moments and at the lines that 'tlsf plot' names: the slider, keys
and buttons choose one. It takes none of --text, --at and --worst, and of --at
and --worst at most one is given. If less than a tenth of a heap is ever live,
the page shows its words up to ten times the peak, and says so.

  tlsf map --html < two_workers.trace > heaps.html

The exit status is 0 where the picture is written, 1 where a fault of the
trace, of a read or of a write ends the run, and 3 where memory runs out. Faults
are those of 'tlsf replay'.";

/// The text of `tlsf plot --help` after its options.
pub const PLOT_HELP: &str = "\
Standard input is a trace, as 'tlsf replay --help' tells. It is run to its end,
with the drains there, and no reply is written.

Standard output is an SVG file, for a browser: for each heap, over the lines of
the trace, the words that are live and those that each line asks for; the free
words and those of the largest free block; the fragmentation; and where a call
of its worker was refused. A point is the report on the heap after a line.
Where there are more than 2000 lines, several are drawn as one point, which
shows the worst of each number: the most live words, the fewest free ones, the
smallest of the largest free blocks, the most fragmentation.

  tlsf plot < two_workers.trace > heaps.svg

If less than a tenth of a heap is ever live, its chart of live words ends at ten
times the peak, and says so, as 'words 0 to 3040 of 262144'.

Above each heap stands the line to look at by 'tlsf map --at K'. Of the lines
after which the longest request of its worker would find no room, it is the
first with the most free words, the worst moment. Where that request finds room
after each line, it is the fullest moment: of the lines with the most live
words, the first with the most fragmentation. Below it stands the peak, the
first line with the most live words. Each has a mark in the plot. A line after
the last is the end.

With --text it is rows of 56 columns for a terminal of 80 columns, with bars of
block characters (UTF-8), and '!' where a call was refused.

The exit status is 0 where the plot is written, 1 where a fault of the trace, of
a read or of a write ends the run, and 3 where memory runs out. Faults are those
of 'tlsf replay'.";

/// The text of `tlsf check --help` after its options.
pub const CHECK_HELP: &str = "\
Standard input is a trace, as 'tlsf replay --help' tells. It is read and not
run. Where it is a good one, standard output is one line, as

  trace of version 1: 2 workers of 64 words, 7 calls, 2 phases

Where a line is faulty, standard error has the fault as 'tlsf replay' has it,
and behind it the line as it stands, a mark under the byte where the fault is,
which field that is, and what was expected there:

  tlsf: line 2: label out of order (14)
    f 0 9
        ^
    field 3, the label: one that a line before made; found `9`, which none made

The exit status is that of 'tlsf replay': 0 where the trace is a good one, 1
where a fault of it, of a read or of a write ends the check, and 3 where memory
runs out.";

/// The text of `tlsf classes --help` after its options.
pub const CLASSES_HELP: &str = "\
Nothing is read. Standard output is one line. For 460 words it is

  class 92 low 448 search 93 low 464

Free blocks of 460 words are kept in class 92, whose least size is 448 words.
A request for 460 words is served from class 93 on, the least class in which
no block is too small, as it begins at 464 words.

With --level 5 the classes are those of level 5: 32 between two powers of two,
in place of 16, for sizes up to 16777216 words in place of 1048576. For 460
words it is

  class 153 low 456 search 154 low 464

The exit status is 2 where the level has no class of so many words.";

/// The text of `tlsf size --help` after its options.
pub const SIZE_HELP: &str = "\
Nothing is read. Standard output is one line. For '--blocks 100 --bytes 512'
it is

  words 13631 bytes 109048 ratio 2.13

A heap of 13631 words takes 109048 bytes, 2.13 times the 100 times 512 bytes
that are asked for. A program that never holds more than 100 blocks, of at most
512 bytes each, is then never answered NoFit (1), in whatever order it
allocates and frees. The block that is being asked for counts as held, and so
does one whose name waits in a lane until its owner takes it.

Several kinds of blocks are given one after the other, 64 at most: the first
--blocks belongs to the first --bytes, and so on. For '--blocks 100 --bytes 64
--blocks 4 --bytes 4096' the line is

  words 59427 bytes 475416 ratio 20.87

A block counts for the first kind that is long enough for it, so short ones come
first. 'tlsf replay --kinds' writes the kinds of each worker of a trace, and
'tlsf replay --help' has the command that gives them to 'tlsf size'.

With --level 5 the heap is one of level 5: it has 32 classes between two powers
of two, in place of 16, and 16777216 words at most. For '--blocks 100 --bytes
600 --level 5' the line is

  words 15720 bytes 125760 ratio 2.10

where at level 4 it is

  words 15920 bytes 127360 ratio 2.12

With --split the kinds are given to several pools, 8 at most, in their order, so
that all take the fewest words. A pool gives each block the words of its longest
kind, and so needs about half as many as a heap. For '--blocks 2000 --bytes 64
--blocks 1 --bytes 65536 --split', for which one heap is too small, there is a
line for each pool's heap and one for all. A block goes to the first heap for
blocks of its length:

  heap 0 kinds 1 to 1 up to 64 bytes words 22000 bytes 176000 ratio 1.38
  heap 1 kinds 2 to 2 up to 65536 bytes words 8704 bytes 69632 ratio 1.06
  heaps 2 words 30704 bytes 245632 ratio 1.27

Not promised: an allocate or a free is refused as Worn (2) once the ticks of the
heap have ended, and a request above these bounds may find room or not. Each
heap has words of its own.

The exit status is 0 where the line is written, 1 where a write fails, and 2
where no region, of 1048576 words at most, or 16777216 with --level 5, is large
enough. Standard error then has the most blocks of N bytes, and the most bytes
for each of B blocks; 0 says that there is none. Of several kinds it has how
many a region has room for, and the next one. It has how many heaps are large
enough with --split, and their words. Where a region of level 5 is large enough,
it has the words of that one too. Where --blocks and --bytes are not given as
often as each other, the status is 2, and standard error has how often each is
given.";
