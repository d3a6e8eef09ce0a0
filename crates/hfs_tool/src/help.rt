//! What the program says about itself.

/// The name and version of the program, as a bag gives them.
pub const PROGRAM: &str = "hfs_tool 1.0.0";

/// What follows the help text.
pub const AFTER_HELP: &str = "Exit statuses:
  0  done
  1  the command line is refused
  2  the image is refused, or the plan of a new volume, or a script
  3  ls or cat got a code other than 0: -37 bad name, -43 not found,
     -120 not a folder; rescue found damage; something can't be put
  4  a file could not be read or written, or the file of extract or the
     folder of take or rescue already exists
  5  out of memory, no place for a viewer, or a line of a script has no
     answer

Examples:
  hfs_tool info disk.img
  hfs_tool check disk.img
  hfs_tool ls disk.img
  hfs_tool ls disk.img --path :Games
  hfs_tool items disk.img --format csv > items.csv || rm items.csv
  hfs_tool page disk.img > disk.html
  hfs_tool cat disk.img 19 'Read Me' > read_me.data || rm read_me.data
  hfs_tool cat disk.img --path ':Games:Read Me' --macbinary > game.bin
  hfs_tool take disk.img disk
  hfs_tool rescue damaged.img disk
  hfs_tool volumes hard_disk.img
  hfs_tool ls hard_disk.img --volume 1
  hfs_tool extract hard_disk.img volume.img --volume 1
  hfs_collect disks.db disk.img hard_disk.img
  hfs_tool new disk.img Archive 800K
  hfs_tool repair disk.img mended.img
  hfs_tool run disk.img calls.txt --now 3000000000 --out disk.img
  hfs_tool put disk.img Letters game.bin --macbinary --out disk.img

The text of a fault is printed in place of the result: test the exit
status.

What new, make, repair, put and run --out write goes to FILE.0.new next
to FILE, which is renamed to FILE when it is complete: after a fault
FILE is as it was. FILE keeps its permissions, and its owner and group
if the system allows it. It is not written if nobody may write to it, or
if it is a link to no file.";
