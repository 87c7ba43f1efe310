// What a line says: its name, and the words behind it.
use text::words::Words;
use wire::payment::unfold;

// The words that a line names bytes with stand last, and are no part of its command: they are decoded where they stand.
#[derive(Clone, Copy)]
pub enum Command {
    Change(Change),
    Save {
        clock: u64,
    },
    // The lengths of what is lent.
    Rooms {
        table: u64,
        reply: u64,
        snapshot: u64,
    },
    Show(Show),
    State,
    // For the bytes of a snapshot.
    Totals,
}

// A call that changes state.
#[derive(Clone, Copy)]
pub enum Change {
    Begin {
        own: u32,
        clock: u64,
        random: [u32; 4],
    },
    // From the last accepted save, or from the line's bytes.
    Resume {
        clock: u64,
        random: [u32; 4],
        is_last: bool,
    },
    // The line's bytes as a datagram.
    Receive {
        clock: u64,
        endpoint: u32,
        is_unicast: bool,
        random: [u32; 4],
    },
    Tick {
        clock: u64,
        endpoint: u32,
        random: [u32; 4],
    },
    KeepAlive {
        clock: u64,
        endpoint: u32,
        interval: u32,
        random: [u32; 4],
    },
    Pay {
        clock: u64,
        household: u32,
        receipt: u32,
        amount: i32,
        random: [u32; 4],
    },
    Purge {
        clock: u64,
        random: [u32; 4],
    },
}

// A call that sums or shows.
#[derive(Clone, Copy)]
pub enum Show {
    Total { clock: u64, household: u32 },
    Sum { clock: u64 },
    Marks { clock: u64 },
    Node { id: u32 },
}

impl Command {
    // What the line says, if it is of a form.
    pub fn read(line: &[u8]) -> Option<Command> {
        let mut words = Words::of(line);
        let name = words.next()?;
        let command = match name {
            b"save" => Command::Save {
                clock: words.long()?,
            },
            b"rooms" => Command::Rooms {
                table: words.long()?,
                reply: words.long()?,
                snapshot: words.long()?,
            },
            b"state" => Command::State,
            b"totals" => {
                words.bytes()?;
                Command::Totals
            }
            b"total" | b"sum" | b"marks" | b"show" => Command::Show(Show::read(name, &mut words)?),
            _ => Command::Change(Change::read(name, &mut words)?),
        };
        words.end()?;
        Some(command)
    }
}

impl Change {
    // The words behind the name.
    fn read(name: &[u8], words: &mut Words<'_>) -> Option<Change> {
        Some(match name {
            b"begin" => Change::Begin {
                own: words.small()?,
                clock: words.long()?,
                random: words.four()?,
            },
            b"resume" => Change::Resume {
                clock: words.long()?,
                random: words.four()?,
                is_last: words.is_last()?,
            },
            b"receive" => {
                let receive = Change::Receive {
                    clock: words.long()?,
                    endpoint: words.small()?,
                    is_unicast: words.is_unicast()?,
                    random: words.four()?,
                };
                words.bytes()?;
                receive
            }
            b"tick" => Change::Tick {
                clock: words.long()?,
                endpoint: words.small()?,
                random: words.four()?,
            },
            b"keep-alive" => Change::KeepAlive {
                clock: words.long()?,
                endpoint: words.small()?,
                interval: words.small()?,
                random: words.four()?,
            },
            b"pay" => Change::Pay {
                clock: words.long()?,
                household: words.small()?,
                receipt: words.small()?,
                amount: unfold(words.amount()?),
                random: words.four()?,
            },
            b"purge" => Change::Purge {
                clock: words.long()?,
                random: words.four()?,
            },
            _ => return None,
        })
    }
}

impl Show {
    // The words behind the name.
    fn read(name: &[u8], words: &mut Words<'_>) -> Option<Show> {
        Some(match name {
            b"total" => Show::Total {
                clock: words.long()?,
                household: words.small()?,
            },
            b"sum" => Show::Sum {
                clock: words.long()?,
            },
            b"marks" => Show::Marks {
                clock: words.long()?,
            },
            b"show" => Show::Node { id: words.small()? },
            _ => return None,
        })
    }
}
