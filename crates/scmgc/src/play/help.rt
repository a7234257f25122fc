//! What `help` answers.

/// The forms of all lines.
pub const HELP: &str = "\
P is a process's number, N a number, [ ] may be left out, .. is any count of it

spawn N N [priv]     start a process: user, limit on descriptors
P open               open a plain file
P dup N              copy a descriptor
P dup2 N N           copy a descriptor to a number
P close N            close a descriptor
P fork               start a child process
P exit               end the process
P pair TYPE          make two connected sockets: dgram, seqpacket or stream
P socket TYPE        make a socket: dgram, seqpacket or stream
P bind N NAME        name a socket
P listen N N         listen at a socket: most connections that wait
P connect N NAME     connect a socket
P accept N           accept a connection
P send N BYTES N ..  send bytes and descriptors
P recv N N N         receive: socket, most bytes, most descriptors
P peek N N N         see what a receive would take (version 2)
P limit N            set the limit on descriptors (version 2)
P shutdown N HOW     close ends of a socket: read, write or both (version 3)
P unconnect N        let a datagram socket send to none (version 3)
begin                begin a pass of the collector
slice N              continue it, by at most N units
pass                 make a whole pass
table                report all live files
totals               report what each user has in flight
check                report a recount
version N            let events of version N be read; the first line

who                  say what holds each file
graph                draw the world in the language of Graphviz
help                 say this
";
