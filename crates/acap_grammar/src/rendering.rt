//! Prints replies.

ghost use Rattle.std.specs.Prelude.{◌≡◌, ◌++◌, OnOk, OnErr};
ghost use Rattle.acap_grammar.specs.Appending.{Appends};
ghost use Rattle.acap_commands.specs.declared.command.Verb.TheVariants as verbs;
ghost use Rattle.acap_grammar.specs.Lent.{completion_of, lent_tag, reply_of};
ghost use Rattle.acap_grammar.specs.Replies.{row_form, rows_form, last_form, done_of, done_form, status_form, refused_form, greeting, total_form, searched_form, found_form, deleted_name_form, deleted_names_form, deleted_form, rights_form, rights_list_form, challenge_form, good_bye_form, said_form, updated_form, tag_of, octets_of};

use crate::codes::append_code;
use crate::data::append_items;
use crate::notices::append_tolds;
use crate::refusing::text_of;
use crate::strings::{append_spaced, append_string};
use acap_commands::{Refusal, Reply, Said, SearchReply, Status, Verb};
use acap_entries::{Memory, Moment, Octets, Row, Value, stamp};
use acap_notices::Tolds;
use itoa::Buffer;

#[tactic(auto, unfolding(crate::specs::Replies::row_form))]
fn append_row(tag: &[u8], row: &Row, out: &mut Vec<u8>) -> Result<(), Memory>
    ensures { Appends result out.old.items out.new.items (row_form tag.now row.now) }
{
    out.extend_from_slice(tag)?;
    out.extend_from_slice(b" ENTRY ")?;
    append_string(row.name.as_slice(), out)?;
    append_items(&row.items, out)?;
    out.extend_from_slice(b"\r\n")?;
    Ok(())
}

fn append_rows(tag: &[u8], rows: &[Row], out: &mut Vec<u8>) -> Result<(), Memory>
    ensures { Appends result out.old.items out.new.items (rows_form tag.now rows.now) }
{
    for row in rows {
        append_row(tag, row, out)?;
    }
    Ok(())
}

#[tactic(auto, unfolding(crate::specs::Replies::last_form))]
fn append_last(tag: &[u8], last: Option<Moment>, out: &mut Vec<u8>) -> Result<(), Memory>
    ensures { Appends result out.old.items out.new.items (last_form tag.now last) }
{
    let Some(moment) = last else {
        return Ok(());
    };
    out.extend_from_slice(tag)?;
    out.extend_from_slice(b" MODTIME ")?;
    append_string(&stamp(moment), out)?;
    out.extend_from_slice(b"\r\n")?;
    Ok(())
}

// How a completion goes on after its tag.
fn completion_of(verb: Verb) -> &'static [u8]
    ensures { result.now ≡ completion_of verb }
{
    match verb {
        Verb::Noop => b" OK \"NOOP done\"\r\n",
        Verb::Logout => b" OK \"LOGOUT done\"\r\n",
        Verb::Authenticate => b" OK \"AUTHENTICATE done\"\r\n",
        Verb::Search => b" OK \"SEARCH done\"\r\n",
        Verb::FreeContext => b" OK \"FREECONTEXT done\"\r\n",
        Verb::UpdateContext => b" OK \"UPDATECONTEXT done\"\r\n",
        Verb::Store => b" OK \"STORE done\"\r\n",
        Verb::DeletedSince => b" OK \"DELETEDSINCE done\"\r\n",
        Verb::SetAcl => b" OK \"SETACL done\"\r\n",
        Verb::DeleteAcl => b" OK \"DELETEACL done\"\r\n",
        Verb::MyRights => b" OK \"MYRIGHTS done\"\r\n",
        Verb::ListRights => b" OK \"LISTRIGHTS done\"\r\n",
    }
}

#[tactic(auto, unfolding(crate::specs::Replies::done_form))]
fn append_done(tag: &[u8], verb: Verb, out: &mut Vec<u8>) -> Result<(), Memory>
    ensures { Appends result out.old.items out.new.items (done_form tag.now verb) }
{
    out.extend_from_slice(tag)?;
    out.extend_from_slice(completion_of(verb))?;
    Ok(())
}

fn append_status(status: Status, tag: &[u8], out: &mut Vec<u8>) -> Result<(), Memory>
    ensures { Appends result out.old.items out.new.items (status_form status tag.now) }
{
    match status {
        Status::No => {
            out.extend_from_slice(tag)?;
            out.extend_from_slice(b" NO ")?;
        }
        Status::Bad => {
            out.extend_from_slice(tag)?;
            out.extend_from_slice(b" BAD ")?;
        }
        Status::Bye => out.extend_from_slice(b"* BYE ")?,
    }
    Ok(())
}

#[tactic(auto, unfolding(crate::specs::Replies::refused_form))]
fn append_refused(tag: &[u8], refusal: &Refusal, out: &mut Vec<u8>) -> Result<(), Memory>
    ensures { Appends result out.old.items out.new.items (refused_form tag.now refusal.now) }
{
    append_status(refusal.status(), tag, out)?;
    append_code(refusal, out)?;
    append_string(text_of(refusal), out)?;
    out.extend_from_slice(b"\r\n")?;
    Ok(())
}

fn append_greeting(out: &mut Vec<u8>) -> Result<(), Memory>
    ensures { Appends result out.old.items out.new.items greeting }
{
    out.extend_from_slice(
        b"* ACAP (IMPLEMENTATION \"acapd\") (SASL \"CRAM-MD5\") (CONTEXTLIMIT \"200\")\r\n",
    )?;
    Ok(())
}

#[tactic(auto, unfolding(crate::specs::Replies::total_form))]
fn append_total(total: u32, out: &mut Vec<u8>) -> Result<(), Memory>
    ensures { Appends result out.old.items out.new.items (total_form total) }
{
    let mut digits = Buffer::new();
    out.extend_from_slice(b"(TOOMANY ")?;
    out.extend_from_slice(digits.format(total).as_bytes())?;
    out.extend_from_slice(b") ")?;
    Ok(())
}

// The text of a SEARCH's completion.
fn search_done() -> &'static [u8]
    ensures { result.now ≡ done_of verbs.Search }
{
    b"SEARCH done"
}

#[tactic(auto, unfolding(crate::specs::Replies::searched_form))]
fn append_searched(tag: &[u8], total: Option<u32>, out: &mut Vec<u8>) -> Result<(), Memory>
    ensures { Appends result out.old.items out.new.items (searched_form tag.now total) }
{
    let Some(total) = total else {
        return append_done(tag, Verb::Search, out);
    };
    out.extend_from_slice(tag)?;
    out.extend_from_slice(b" OK ")?;
    append_total(total, out)?;
    append_string(search_done(), out)?;
    out.extend_from_slice(b"\r\n")?;
    Ok(())
}

#[tactic(auto, unfolding(crate::specs::Replies::found_form))]
fn append_found(tag: &[u8], found: &SearchReply, out: &mut Vec<u8>) -> Result<(), Memory>
    ensures { Appends result out.old.items out.new.items (found_form tag.now found.now) }
{
    append_rows(tag, found.rows.as_slice(), out)?;
    append_last(tag, found.last, out)?;
    append_searched(tag, found.total, out)
}

#[tactic(auto, unfolding(crate::specs::Replies::deleted_name_form))]
fn append_deleted_name(tag: &[u8], name: &[u8], out: &mut Vec<u8>) -> Result<(), Memory>
    ensures { Appends result out.old.items out.new.items (deleted_name_form tag.now name.now) }
{
    out.extend_from_slice(tag)?;
    out.extend_from_slice(b" DELETED ")?;
    append_string(name, out)?;
    out.extend_from_slice(b"\r\n")?;
    Ok(())
}

fn append_deleted_names(tag: &[u8], names: &[Value], out: &mut Vec<u8>) -> Result<(), Memory>
    ensures { Appends result out.old.items out.new.items (deleted_names_form tag.now names.now) }
{
    for name in names {
        append_deleted_name(tag, name.as_slice(), out)?;
    }
    Ok(())
}

#[tactic(auto, unfolding(crate::specs::Replies::deleted_form))]
fn append_deleted(tag: &[u8], names: &[Value], out: &mut Vec<u8>) -> Result<(), Memory>
    ensures { Appends result out.old.items out.new.items (deleted_form tag.now names.now) }
{
    append_deleted_names(tag, names, out)?;
    append_done(tag, Verb::DeletedSince, out)
}

#[tactic(auto, unfolding(crate::specs::Replies::rights_form))]
fn append_rights(tag: &[u8], rights: &[u8], out: &mut Vec<u8>) -> Result<(), Memory>
    ensures { Appends result out.old.items out.new.items (rights_form tag.now rights.now) }
{
    out.extend_from_slice(tag)?;
    out.extend_from_slice(b" MYRIGHTS ")?;
    append_string(rights, out)?;
    out.extend_from_slice(b"\r\n")?;
    append_done(tag, Verb::MyRights, out)?;
    Ok(())
}

#[tactic(auto, unfolding(crate::specs::Replies::rights_list_form))]
fn append_rights_list(tag: &[u8], rights: &[Value], out: &mut Vec<u8>) -> Result<(), Memory>
    ensures { Appends result out.old.items out.new.items (rights_list_form tag.now rights.now) }
{
    out.extend_from_slice(tag)?;
    out.extend_from_slice(b" LISTRIGHTS")?;
    append_spaced(rights, out)?;
    out.extend_from_slice(b"\r\n")?;
    append_done(tag, Verb::ListRights, out)?;
    Ok(())
}

#[tactic(auto, unfolding(crate::specs::Replies::challenge_form))]
fn append_challenge(challenge: &[u8], out: &mut Vec<u8>) -> Result<(), Memory>
    ensures { Appends result out.old.items out.new.items (challenge_form challenge.now) }
{
    out.extend_from_slice(b"+ ")?;
    append_string(challenge, out)?;
    out.extend_from_slice(b"\r\n")?;
    Ok(())
}

#[tactic(auto, unfolding(crate::specs::Replies::good_bye_form))]
fn append_good_bye(tag: &[u8], out: &mut Vec<u8>) -> Result<(), Memory>
    ensures { Appends result out.old.items out.new.items (good_bye_form tag.now) }
{
    out.extend_from_slice(b"* BYE ")?;
    append_string(b"Good bye", out)?;
    out.extend_from_slice(b"\r\n")?;
    append_done(tag, Verb::Logout, out)?;
    Ok(())
}

#[tactic(auto, unfolding(crate::specs::Replies::updated_form))]
fn append_updated(tag: &[u8], tolds: &Tolds, out: &mut Vec<u8>) -> Result<(), Memory>
    ensures { Appends result out.old.items out.new.items (updated_form tag.now tolds.now) }
{
    append_tolds(tolds, out)?;
    append_done(tag, Verb::UpdateContext, out)
}

#[tactic(auto, unfolding(crate::specs::Replies::said_form))]
fn append_said(tag: &[u8], said: &Said, out: &mut Vec<u8>) -> Result<(), Memory>
    ensures { Appends result out.old.items out.new.items (said_form tag.now said.now) }
{
    match said {
        Said::Greeting => append_greeting(out),
        Said::Left => Ok(()),
        Said::Drained(tolds) => append_tolds(tolds, out),
        Said::Updated(tolds) => append_updated(tag, tolds, out),
        Said::Done(verb) => append_done(tag, *verb, out),
        Said::Searched(found) => append_found(tag, found, out),
        Said::Deleted(names) => append_deleted(tag, names.as_slice(), out),
        Said::Rights(rights) => append_rights(tag, rights.as_slice(), out),
        Said::RightsList(rights) => append_rights_list(tag, rights.as_slice(), out),
        Said::Challenge(challenge) => append_challenge(challenge.as_slice(), out),
        Said::GoodBye => append_good_bye(tag, out),
        Said::Refused(refusal) => append_refused(tag, refusal, out),
    }
}

fn tag_of(tag: Option<&[u8]>) -> &[u8]
    ensures { result.now ≡ tag_of (lent_tag tag.entry) }
{
    match tag {
        Some(tag) => tag,
        None => b"*",
    }
}

/// Appends the printed form of what is said under a tag (RFC 2244 sections 2.2 and 6.2): the whole of it, or nothing where
/// memory was refused.
#[tactic(auto, unfolding(crate::specs::Replies::octets_of))]
pub fn render_said(tag: Option<&[u8]>, said: &Said, out: &mut Vec<u8>) -> Result<(), Memory>
    ensures ok { OnOk result (out.new.items ≡ out.old.items ++ octets_of (reply_of tag.entry said.now)) }
    ensures err { OnErr result (out.new.items ≡ out.old.items) }
{
    let len = out.len();
    let done = append_said(tag_of(tag), said, out);
    if done.is_err() {
        out.truncate(len);
    }
    done
}

fn lend(tag: &Option<Octets>) -> Option<&[u8]>
    ensures { lent_tag result ≡ tag.now }
{
    match tag {
        Some(tag) => Some(tag.as_slice()),
        None => None,
    }
}

/// Appends the printed form of a reply (RFC 2244 sections 2.2 and 6.2): the whole of it, or nothing where memory was refused.
pub fn render(reply: &Reply, out: &mut Vec<u8>) -> Result<(), Memory>
    ensures ok { OnOk result (out.new.items ≡ out.old.items ++ octets_of reply.now) }
    ensures err { OnErr result (out.new.items ≡ out.old.items) }
{
    render_said(lend(&reply.tag), &reply.said, out)
}
