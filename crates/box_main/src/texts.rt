//! The texts of the help, which `bin/texts hbox write` writes here from docs/box-help.txt.

/// The parts of docs/box-help.txt, each behind a line `== NAME`.
pub(crate) static TEXTS: &str = "
== version
hbox 0.1, for image formats 1 and 2 (HSTORE01)

== name
hbox - keeps folders and files in an image file

== calls
  hbox SUBCOMMAND IMAGE [ARGUMENTS] [OPTIONS]
  hbox SUBCOMMAND --help
  hbox --help
  hbox --version

== about
An image is one file that holds folders and files. hbox makes an image of a
folder, changes it, and gets folders and files out of it:

  hbox create box.img files       makes box.img of the folder files
  hbox ls -lR box.img             lists all that is in it, with sizes
  hbox get box.img docs/a.txt     prints the file docs/a.txt
  hbox rm box.img docs/a.txt      removes the file docs/a.txt from it
  hbox compare box.img dir        compares it with dir: A is only in dir,
                                  D only in box.img, M differs
  hbox extract box.img copy       extracts it into the folder copy

create makes a new image, and never writes over a file. rm, mv, mkdir and
attr change an image, each all at once or not at all. The others only read it. A
path in the image is written as on the host, with or without a / in front:
docs/a.txt or /docs/a.txt.

== words
Options stand anywhere after the subcommand. Each subcommand has:

  -h, --help        prints what the subcommand does, with examples
  --escaped         takes and prints paths as in the image: a%20b
  -q, --quiet       prints no summary and no progress
  -v, --verbose     prints a summary even without a terminal
  --wait[=SECONDS]  waits, 60 seconds at most or as many as are given, if
                    another program is using the image
  --                ends the options: hbox ls -- -x.img

== create
Makes an image of a folder.

Usage: hbox create IMAGE DIR [OPTIONS]

  --slots N   The number of slots, 1 to 65536. Without it, the least of
              64, 128 and so on that leaves a quarter free; else 65536
  --height H  The number of levels, 1 to 8. Without it, 4
  --draw D    What places the pages: ruler or sha256. Without it, sha256
  --seed HEX  The seed: 64 hexadecimal digits, random, or - for digits on
              standard input. Without it, zeros
  --empty     Makes an image that holds nothing. DIR is left out
  --dry-run   Makes nothing, and prints what `hbox info` would print
  --skip      Leaves out what an image cannot hold, and stores the rest
  --no-mode   Does not store which files are executable
  --no-links  Leaves out symbolic links
  --mtime     Stores times

IMAGE must not exist. Equal folders and options give equal images. If other
people choose the names in DIR, use --seed random: whoever knows the seed can
choose names that make the image slow. Share the seed, which `hbox info IMAGE`
prints, with whoever is to make an equal image.

Examples:
  hbox create box.img files
  hbox create box.img files --seed random --skip

== extract
Extracts an image, or some of its paths, into a folder.

Usage: hbox extract IMAGE DIR [PATH..] [OPTIONS]

  DIR         The folder, which is made. An empty folder may be there
  PATH        What is extracted, with all below it, to DIR/PATH, as with
              tar. Without PATH, everything is
  --skip      Leaves out what the host cannot have, and makes the rest
  --no-mode   Makes no file executable
  --no-links  Leaves out symbolic links
  --mtime     Sets times. An image that has times sets them by itself
  --no-mtime  Sets no times

The status is 1 if something was left out. Nothing is written over, and no link
is followed. If extract fails, it takes away what it made. If it is killed, what
it made stays: remove DIR, and run it again.

Examples:
  hbox extract box.img copy
  hbox extract box.img part docs 'notes/May 1.txt'

== ls
Lists the names in an image, a line each.

Usage: hbox ls IMAGE [PATH] [-l] [-R] [-0] [OPTIONS]

  PATH  A folder, whose entries are listed, or a file, whose name is.
        Without PATH, it is the whole image
  -l    Also prints kind, size, time in UTC, and where a link leads. The
        kind is d for a folder, f for a file, x for a file that its owner
        may execute, l for a symbolic link
  -R    Lists all that is below PATH, by paths from PATH on
  -0    Ends each name with a zero byte instead of a line feed

The name of a folder ends with /. The order is that of the image.

Examples:
  hbox ls box.img docs
  hbox ls -lR box.img

== get
Prints a file of an image, or copies it to a file.

Usage: hbox get IMAGE PATH [FILE] [OPTIONS]

  PATH  The path of the file in the image
  FILE  The file that is written. Without FILE, or if FILE is -, it is
        standard output
  --paths0-from LIST
        Reads PATH from the file LIST, or standard input if LIST is -.
        A zero byte ends it. The command line has no PATH then

If FILE is there, it is replaced, and only once all bytes are written under
another name in the same folder. A device or a pipe is written into. If PATH is
a folder or a symbolic link, nothing is written, and the status is 17.

Examples:
  hbox get box.img docs/a.txt | less
  hbox get box.img 'notes/May 1.txt' may.txt

== rm
Removes files and folders from an image.

Usage: hbox rm IMAGE PATH.. [-r] [-f] [OPTIONS]

  PATH  The path of a file or of an empty folder
  -r    Removes folders with all that is below them
  -f    Passes over a PATH at which nothing is
  --paths0-from LIST
        Reads more PATH from the file LIST, or standard input if LIST
        is -. A zero byte ends each

If something is wrong with one PATH, nothing is removed, and the status is 17.
What was removed is gone from the image, but not from copies of it, nor from the
disk below (docs/ERASURE.md).

Examples:
  hbox rm box.img docs/a.txt
  hbox rm -r box.img docs 'notes/May 1.txt'

== mv
Moves a file or folder in an image.

Usage: hbox mv IMAGE FROM TO [-f] [OPTIONS]

  FROM  The path at which it is
  TO    The path that it gets. The folder that TO is in must exist
  -f    Replaces a file that is at TO, also by a folder

If a folder is at TO, or a file without -f, nothing is moved, and the status is
17. To move into a folder, give the new path: docs/a.txt. A folder moves with
all that is below it, but not into itself.

Examples:
  hbox mv box.img docs/a.txt docs/b.txt
  hbox mv -f box.img draft.txt letters/may.txt

== mkdir
Makes folders in an image.

Usage: hbox mkdir IMAGE PATH.. [-p] [OPTIONS]

  PATH  The path of a new folder. They are made one after another
  -p    Also makes the folders that PATH is in, and accepts a PATH that
        is a folder already

If one of them cannot be made, none is, and the status is 17.

Examples:
  hbox mkdir box.img letters letters/2026
  hbox mkdir -p box.img letters/2026/may

== attr
Lists, prints, sets or removes attributes of a path of an image.

Usage: hbox attr IMAGE PATH [NAME [VALUE]] [-d NAME] [--hex] [OPTIONS]

  NAME     The attribute's name: 1 to 32 bytes of visible ASCII but /.
           Without it, the names are listed, a line each
  VALUE    What it is set to, up to 255 bytes; - reads it from standard
           input, with the line feed at its end. Without VALUE, the
           value is printed
  -d NAME  Removes the attribute of this name
  --hex    Takes or prints the value in hexadecimal digits

A file whose attribute mode is x may be executed; mtime is its time in seconds,
and link is where a symbolic link leads. An attribute that is not there, or for
which the path has no room, ends with status 17.

Examples:
  hbox attr box.img docs/a.txt checksum 'sha1 4e1243bd'
  hbox attr box.img docs/a.txt -d checksum

== compare
Lists how a folder or another image differs from an image.

Usage: hbox compare IMAGE DIR|IMAGE2 [-0] [OPTIONS]

  -0          Ends each line with a zero byte instead of a line feed
  --skip      Compares the rest if something in DIR cannot be in an image
  --no-mode   Ignores whether a file is executable
  --no-links  Ignores symbolic links
  --mtime     Compares times. An image that has times does so by itself
  --no-mtime  Ignores times

Each line is a letter and a path: A is only in DIR, D is only in IMAGE, M is in
both and differs. If there is no line, the status is 0, else 1. Two images are
compared with all that they hold. A message names parameters that differ. With
equal parameters and no line, the images are equal.

Examples:
  hbox compare box.img copy
  hbox compare box.img backup.img

== check
Tells whether an image is sound, and prints its digest.

Usage: hbox check IMAGE [--digest HEX] [OPTIONS]

  --digest HEX  Compares the digest with this one, of 64 hexadecimal
                digits. The status is 1 if it is another

It reads the whole image, and prints one of these:

  sound: FOLDERS folders, FILES files, BYTES bytes, USED of SLOTS slots
  damaged
  not an image

Of a sound image it then prints `sha256` and the digest, and `recovery pending`
if a program was stopped while it changed the image. The digest is that of the
recovered image: equal digests mean equal images.

Examples:
  hbox check box.img
  hbox check box.img --digest \"$(cat box.sha256)\"

== info
Prints the parameters of an image, and what it holds.

Usage: hbox info IMAGE [OPTIONS]

It prints these lines, each with its value: version, slots, used, height, draw,
seed, folders, files, bytes. Files lie in slots of 4096 bytes. Height, draw and
seed tell how they are arranged. Two images of one folder are equal if they have
the same version, slots, height, draw and seed.

Examples:
  hbox info box.img
  hbox info box.img | grep seed

== map
Draws the slots of an image.

Usage: hbox map IMAGE [OPTIONS]

The first line tells of the image, the second whether a change is under way.
Then each slot is a character, 64 in a line:

  .       a free slot
  0 to 7  a page of this level
  ?       any other bytes

If a program was stopped while it changed the image, lines of marks follow. A
+ is a slot that was to be changed. The slots are shown as they stand, not as
they would be recovered.

Examples:
  hbox map box.img
  hbox map box.img | less

== pack
Prints the listing of a folder.

Usage: hbox pack DIR [OPTIONS] >LISTING

  --skip      Leaves out what an image cannot hold, and prints the rest
  --no-mode   Does not print which files are executable
  --no-links  Leaves out symbolic links
  --mtime     Prints times

A listing is text: the commands that make a tree. This one makes what
`hbox create` stores with the same options. `hstore IMAGE load` puts it into an
empty image, and `hbox unpack` makes a folder of it. Write it outside of DIR.

The status is 1 if something was left out. If pack fails, the listing ends with
the line `broken off`, which `load` and `unpack` refuse. If pack is killed or
the disk is full, the listing may look complete: look at the status.

Examples:
  hbox pack files >files.txt
  hbox pack files | hstore box.img load

== unpack
Extracts a listing on standard input into a folder.

Usage: hbox unpack DIR [OPTIONS] <LISTING

  DIR         The folder, which is made. An empty folder may be there
  --skip      Leaves out what the host cannot have, and makes the rest
  --no-mode   Makes no file executable
  --no-links  Leaves out symbolic links
  --mtime     Sets times. A listing that has times sets them by itself
  --no-mtime  Sets no times

A listing is text: the commands that make a tree. `hstore IMAGE dump` prints it
of an image, and `hbox pack DIR` of a folder. The status is 1 if something was
left out, and 15 if the input is not a listing. What was made is taken away
then. An image is extracted by `hbox extract`.

Examples:
  hstore box.img dump | hbox unpack copy
  hbox unpack copy --skip <listing.txt

== statuses
The status tells how a call ended. A message on standard error tells more.

   0  done; what was compared is equal
   1  what was compared differs, or something was left out
   2  the command line is wrong, or what it names on standard input or
      in a list; nothing was changed
   3  standard input could not be read
   4  standard output could not be written
   5  the disk with an image failed; a change is in the image, or nothing
      of it
   7  a file is not an image
   8  an image is damaged
   9  memory ran out
  12  a file could not be opened or made
  15  the input is not a listing
  16  an image has too few slots for what it was to hold; it is unchanged
  17  a path or attribute is missing, is there already, is of the wrong
      kind or has no room, a folder is not empty, or the image has
      version 1; nothing was changed
  18  a file or folder failed, changed while it was read, or has no place
      in an image or on this system
  19  another program is using the image

== see
If a program was stopped while it changed an image, hbox shows what recovery
would leave. rm, mv, mkdir and attr recover the image first.

  docs/USING.md
      how folders go in and out, what is kept, and how names are written
  docs/QUESTIONS.md
      what people ask first
";
