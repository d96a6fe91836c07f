//! The text for `--help`.

/// The verbs and options of the command line, for a user to read.
pub fn help_text() -> &'static str {
    "\
graphd, a graph store

Usage: graphd serve [OPTIONS]
       graphd replay [--file PATH]
       graphd dump [--file PATH] [--from N]
       graphd restore [--file PATH]
       graphd follow [--file PATH]
       graphd templates [--file PATH]
       graphd gen [--number N] [--count N]

serve      reads lines of JSON from standard input, each a read or a write of
           a session, and prints one line of JSON for each
replay     reads lines of JSON from standard input, each one event of the
           core, carries them out in their order on one thread, and prints
           one line of JSON for each
dump       writes the store's batches as text to standard output
restore    reads such a text from standard input, and stores its batches
           behind those of the store
follow     runs a node that answers asks for groups of batches, takes the
           groups that it is given, and answers reads: a line of JSON each
templates  reads a template a line, and prints what answers it
gen        makes requests by a number, serves them in memory, and prints one
           line of JSON to which the replies come

Options, each at most once, as --name value or --name=value:
  --file PATH     keep the store in this file; without it, in memory
  --workers N     serve: 1 to 16 threads for the sessions of a round, 4 if not
                  given
  --budget N      serve: 1 to 1000000 steps for a slice of a read, 10000 if
                  not given
  --cache N       serve: 1 to 64 replies that each session keeps for the same
                  read again, none if not given
  --from N        dump: the number of the first batch, 0 if not given
  --number N      gen: 0 to 4294967295, 0 if not given
  --count N       gen: 1 to 200000 nodes, 1000 if not given

Examples:
  graphd serve --file store.graphd --budget=5000 < requests.txt
  graphd replay --file store.graphd < events.txt
  graphd dump --file store.graphd > store.txt
  graphd restore --file copy.graphd < store.txt
  graphd gen --number 7 --count 20000
"
}
