// The C front end: the calls on byte slices, where a word is 8 little-endian bytes. Each is the function of a crate of its own, under
// the name that C has for it.
#![tactic(auto)]

ghost use Rattle.std.specs.Prelude.{◌≡◌, length};
ghost use Rattle.format.specs.Front.{CReply, CMend, CUndo, c_audit, c_lookup, c_describe, c_mend, c_undo};
ghost use Rattle.format.specs.Report.{c_report};
ghost use Rattle.ebikwotula.specs.Version.{version};

// The version of the calls, for a program to hold against its header.
#[unsafe(no_mangle)]
pub extern "C" fn ebikwotula_version() -> u32
    ensures { result ≡ version }
{
    6
}

// The audit of an image. `blocks` gets the block list, `reply` the other fields; the number is returned.
#[unsafe(no_mangle)]
pub extern "C" fn ebikwotula_audit(image: &[u8], blocks: &mut [u8], reply: &mut [u8]) -> u32
    ensures { ◌≡◌ {A = CReply} (record { number = result; list = blocks.new; reply = reply.new })
        (c_audit image.now (length blocks.old) (length reply.old)) }
{
    front_audit::audit_bytes(image, blocks, reply)
}

// The lookup of a path. `blocks` is only lent, and is zeros at the end; `reply` gets the other fields; the number is returned.
#[unsafe(no_mangle)]
pub extern "C" fn ebikwotula_lookup(
    image: &[u8],
    path: &[u8],
    blocks: &mut [u8],
    reply: &mut [u8],
) -> u32
    ensures { ◌≡◌ {A = CReply} (record { number = result; list = blocks.new; reply = reply.new })
        (c_lookup image.now path.now (length blocks.old) (length reply.old)) }
{
    front_lookup::lookup_bytes(image, path, blocks, reply)
}

// The description of what a path leads to. `blocks` gets the block list, `reply` the other fields; the number is returned.
#[unsafe(no_mangle)]
pub extern "C" fn ebikwotula_describe(
    image: &[u8],
    path: &[u8],
    blocks: &mut [u8],
    reply: &mut [u8],
) -> u32
    ensures { ◌≡◌ {A = CReply} (record { number = result; list = blocks.new; reply = reply.new })
        (c_describe image.now path.now (length blocks.old) (length reply.old)) }
{
    front_describe::describe_bytes(image, path, blocks, reply)
}

// The mending of an image. `blocks` gets the block list, `log` the undo log, `reply` the other fields; the number is returned.
// No more than `limit` counts are written.
#[unsafe(no_mangle)]
pub extern "C" fn ebikwotula_mend(
    image: &mut [u8],
    blocks: &mut [u8],
    log: &mut [u8],
    reply: &mut [u8],
    limit: u64,
) -> u32
    ensures { ◌≡◌ {A = CMend} (record {
      number = result;
      list = blocks.new;
      log = log.new;
      reply = reply.new;
      image = image.new;
    }) (c_mend image.old (length blocks.old) (length log.old) (length reply.old) limit) }
{
    front_mend::mend_bytes(image, blocks, log, reply, limit)
}

// Undo by a log of bytes. `reply` gets the writes; the number is returned. Where it isn't 0 the image stays.
#[unsafe(no_mangle)]
pub extern "C" fn ebikwotula_undo(
    image: &mut [u8],
    log: &[u8],
    reply: &mut [u8],
    entries: u64,
    limit: u64,
) -> u32
    ensures { ◌≡◌ {A = CUndo} (record { number = result; reply = reply.new; image = image.new })
        (c_undo image.old log.now (length reply.old) entries limit) }
{
    front_undo::undo_bytes(image, log, reply, entries, limit)
}

// The damage report of an image. `blocks` gets the list of the blocks entered, also those before a fault; `reply` gets the other
// fields, with the audit's answer first. 0 is returned, or 13 where the reply is too short.
#[unsafe(no_mangle)]
pub extern "C" fn ebikwotula_report(image: &[u8], blocks: &mut [u8], reply: &mut [u8]) -> u32
    ensures { ◌≡◌ {A = CReply} (record { number = result; list = blocks.new; reply = reply.new })
        (c_report image.now (length blocks.old) (length reply.old)) }
{
    front_report::report_bytes(image, blocks, reply)
}
